//! The writers of the channels that a reaction reads.

ghost use Rattle.std.specs.Prelude.{◌≡◌, ◌++◌, ◌^◌, ◌<◌, drop, length, map, OnOk};
ghost use Rattle.ipdl_mean.specs.Readings.{channels_read};
ghost use Rattle.ipdl_mean.specs.Views.{writers_of, whole_of};
ghost use Rattle.ipdl_term.specs.Networks.{assignment_count};
ghost use Rattle.ipdl_term.specs.Views.{reaction_of};

use crate::writers::Visible;
use ipdl_base::NoMemory;
use ipdl_term::React;

// Adds the writer of the channel of each `read`, from the left.
pub(crate) fn push_writers(
    reaction: &React,
    visible: &Visible,
    writers: &mut Vec<Option<u32>>,
) -> Result<(), NoMemory>
    requires { assignment_count (whole_of visible.now) < 2 ^ 32 }
    ensures { OnOk result (writers.new.items ≡ writers.old.items
        ++ map (writers_of visible.now) (channels_read (reaction_of reaction.now))) }
{
    match reaction {
        React::Ret(_) | React::Flip(_) => Ok(()),
        React::Read(channel) => {
            writers.push(visible.writer(channel))?;
            Ok(())
        }
        React::Cond(_, r, s) | React::Bind(_, r, s) => {
            push_writers(r, visible, writers)?;
            push_writers(s, visible, writers)
        }
    }
}

// The writers behind those of a reaction that is passed over.
pub(crate) fn behind<'a>(reaction: &React, writers: &'a [Option<u32>]) -> &'a [Option<u32>]
    ensures { result.now ≡ drop (length (channels_read (reaction_of reaction.now))) writers.now }
{
    match reaction {
        React::Ret(_) | React::Flip(_) => writers,
        React::Read(_) => writers.get(1..).unwrap_or(&[]),
        React::Cond(_, r, s) | React::Bind(_, r, s) => behind(s, behind(r, writers)),
    }
}
