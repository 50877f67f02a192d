//! Which assignment writes a channel.

ghost use Rattle.std.specs.Prelude.{◌≡◌, ◌+◌, ◌^◌, ◌<◌, IfNone};
ghost use Rattle.ipdl_mean.specs.Views.{writers_of, whole_of};
ghost use Rattle.ipdl_term.specs.Networks.{assignment_count, writer_number};
ghost use Rattle.ipdl_term.specs.Views.{protocol_of};

use ipdl_base::Name;
use ipdl_term::Proto;

// How many assignments there are.
fn assignment_count(proto: &Proto) -> u32
    requires { assignment_count (protocol_of proto.now) < 2 ^ 32 }
    ensures { result ≡ assignment_count (protocol_of proto.now) }
{
    match proto {
        Proto::Nil => 0,
        Proto::Out(_, _) => 1,
        Proto::Par(p, q) => assignment_count(p) + assignment_count(q),
        Proto::Hide(_, _, p) => assignment_count(p),
    }
}

// The number of the assignment that writes an output, where the first one has the number `next`.
// Where there is none, `next` goes on to the number behind the last.
#[tactic(auto, using(crate::proofs::Names::where_same, crate::proofs::Names::where_other))]
fn find_writer(proto: &Proto, next: &mut u32, name: &Name) -> Option<u32>
    requires { next.old + assignment_count (protocol_of proto.now) < 2 ^ 32 }
    ensures number { result ≡ writer_number (protocol_of proto.now) next.old name.now }
    ensures passed { IfNone result (next.new ≡ next.old + assignment_count (protocol_of proto.now)) }
{
    match proto {
        Proto::Nil => None,
        Proto::Out(channel, _) => {
            if channel == name {
                return Some(*next);
            }
            *next += 1;
            None
        }
        Proto::Par(p, q) => match find_writer(p, next, name) {
            Some(number) => Some(number),
            None => find_writer(q, next, name),
        },
        Proto::Hide(channel, _, p) => {
            if channel == name {
                *next += assignment_count(p);
                return None;
            }
            find_writer(p, next, name)
        }
    }
}

// The number of the assignment that writes an output, where the first one has this number.
pub(crate) fn writer_number(proto: &Proto, first: u32, name: &Name) -> Option<u32>
    requires { first + assignment_count (protocol_of proto.now) < 2 ^ 32 }
    ensures { result ≡ writer_number (protocol_of proto.now) first name.now }
{
    let mut next = first;
    find_writer(proto, &mut next, name)
}

// The channels that are visible at a place of a protocol, with the numbers of their writers. Each
// hidden one is held by the call that went into it.
#[derive(Clone, Copy)]
pub(crate) enum Visible<'a> {
    // The outputs of the whole protocol.
    Outputs(&'a Proto),
    // A hidden channel inside of all others.
    Hidden(&'a Visible<'a>, &'a Name, Option<u32>),
}

impl Visible<'_> {
    // The number of the assignment that writes the innermost channel of the name.
    #[tactic(auto, using(crate::proofs::Names::where_same, crate::proofs::Names::where_other))]
    pub(crate) fn writer(&self, name: &Name) -> Option<u32>
        requires { assignment_count (whole_of self.now) < 2 ^ 32 }
        ensures { result ≡ writers_of self.now name.now }
    {
        match self {
            Visible::Outputs(whole) => writer_number(whole, 0, name),
            Visible::Hidden(outside, channel, number) => {
                if *channel == name {
                    return *number;
                }
                outside.writer(name)
            }
        }
    }
}
