//! Protocols: what is visible, what is written, and what is missing at an interface.

ghost use Rattle.std.specs.Prelude.{◌≡◌, ◌++◌, [], ◌∷◌, drop, not, Some, IfOk, IfErr, OnOk};
ghost use Rattle.ipdl_term.specs.Channels.{has, outputs};
ghost use Rattle.ipdl_term.specs.Terms.{assignment};
ghost use Rattle.ipdl_term.specs.Typing.{HasInterface};
ghost use Rattle.ipdl_term.specs.Views.{reaction_of, protocol_of};
ghost use Rattle.ipdl_typing.specs.Answers.{TellsFirstFailure, AnswersChecks};
ghost use Rattle.ipdl_typing.specs.Checks.{checked, not_output, twice, new_unwritten};
ghost use Rattle.ipdl_typing.specs.Interfaces.{interface_failures, failures_in, missing_in};
ghost use Rattle.ipdl_typing.specs.Places.{path_of};
ghost use Rattle.ipdl_typing.specs.Signatures.{signature_of};
ghost use Rattle.ipdl_typing.specs.Visible.{scope_in, writable_in, earlier_in, marked};

use crate::binder_widths::BinderWidths;
use crate::fault::{IllCause, TypeFault};
use crate::place::Place;
use crate::reactions::react_width;
use crate::visible::VisibleChannels;
use ipdl_base::Name;
use ipdl_sig::Sig;
use ipdl_term::{Interface, Port, Proto, React};
use std::alloc::Global;

// Checks that the channel may be written and was not, and notes that it is. The answer is its
// width.
fn write_channel(
    alloc: Global,
    visible: &mut VisibleChannels,
    channel: &Name,
    place: &Place,
) -> Result<u8, TypeFault>
    ensures width { IfOk result (λ w. scope_in visible.old channel.now ≡ Some w) }
    ensures written { OnOk result (visible.new ≡ marked (has (channel.now ∷ [])) visible.old) }
    ensures checks { AnswersChecks result
        (checked (writable_in visible.old channel.now) (path_of place.now) (not_output channel.now)
        ++ checked (not (has (earlier_in visible.old) channel.now)) (path_of place.now)
        (twice channel.now)) }
{
    match visible.write(channel) {
        Some(before) if before.writable => {
            if before.written {
                let name = channel.copy(alloc)?;
                return Err(place.fault(alloc, IllCause::Twice { name }));
            }
            Ok(before.width)
        }
        _ => {
            let name = channel.copy(alloc)?;
            Err(place.fault(alloc, IllCause::NotOutput { name }))
        }
    }
}

// Checks the assignment at the place, and notes that its channel is written. It is kept out of the
// frames of `check_at`, of which there is one for each of the thousands of levels of a protocol.
#[inline(never)]
fn check_assignment(
    alloc: Global,
    sig: &Sig,
    visible: &mut VisibleChannels,
    channel: &Name,
    reaction: &React,
    place: &Place,
) -> Result<(), TypeFault>
    ensures written { OnOk result (visible.new ≡ marked (has (channel.now ∷ [])) visible.old) }
    ensures checks { AnswersChecks result (failures_in (signature_of sig.now) visible.old
        (path_of place.now) (assignment channel.now (reaction_of reaction.now))) }
{
    let want = write_channel(alloc, visible, channel, place)?;
    let first = Place::Child(place, 0);
    let none = BinderWidths::Given(&[]);
    let got = react_width(alloc, sig, &*visible, reaction, &none, &first)?;
    first.expect_width(alloc, want, got)
}

// Checks that the innermost channel, a hidden one of this name, was written, and lets it go.
#[inline(never)]
fn leave_hidden(
    alloc: Global,
    visible: &mut VisibleChannels,
    channel: &Name,
    place: &Place,
) -> Result<(), TypeFault>
    ensures left { OnOk result (visible.new ≡ drop 1 visible.old) }
    ensures checks { AnswersChecks result (checked (has (earlier_in visible.old) channel.now)
        (path_of place.now) (new_unwritten channel.now)) }
{
    if !visible.is_written(channel) {
        let name = channel.copy(alloc)?;
        return Err(place.fault(alloc, IllCause::NewUnwritten { name }));
    }
    visible.leave();
    Ok(())
}

// Checks the protocol at the place, and notes which of the visible channels it writes.
fn check_at<'a>(
    alloc: Global,
    sig: &Sig,
    proto: &'a Proto,
    visible: &mut VisibleChannels<'a>,
    place: &Place,
) -> Result<(), TypeFault>
    ensures written { OnOk result
        (visible.new ≡ marked (has (outputs (protocol_of proto.now))) visible.old) }
    ensures checks { AnswersChecks result (failures_in (signature_of sig.now) visible.old
        (path_of place.now) (protocol_of proto.now)) }
{
    match proto {
        Proto::Nil => Ok(()),
        Proto::Out(channel, reaction) => {
            check_assignment(alloc, sig, visible, channel, reaction, place)
        }
        Proto::Par(p, q) => {
            check_at(alloc, sig, p, visible, &Place::Child(&*place, 0))?;
            check_at(alloc, sig, q, visible, &Place::Child(&*place, 1))
        }
        Proto::Hide(channel, width, p) => {
            place.expect_allowed(alloc, *width)?;
            visible.enter(channel, *width, true)?;
            check_at(alloc, sig, p, visible, &Place::Child(&*place, 0))?;
            leave_hidden(alloc, visible, channel, place)
        }
    }
}

// Checks that each of the declared outputs is written.
fn check_written(
    alloc: Global,
    outputs: &[Port],
    visible: &VisibleChannels,
) -> Result<(), TypeFault>
    ensures { AnswersChecks result (missing_in outputs.now visible.now) }
{
    for port in outputs {
        if !visible.is_written(&port.name) {
            let name = port.name.copy(alloc)?;
            return Err(Place::Root.fault(alloc, IllCause::Missing { name }));
        }
    }
    Ok(())
}

/// Checks that the protocol is well typed where the ports of the interface are visible, and that
/// it writes exactly the outputs. Of several ports of one name the last one counts, the inputs
/// standing before the outputs. An output that is not written is told at the root, after all
/// faults of the protocol itself.
pub fn check_proto(
    alloc: Global,
    sig: &Sig,
    interface: &Interface,
    proto: &Proto,
) -> Result<(), TypeFault>
    ensures typed { OnOk result
        (HasInterface (signature_of sig.now) interface.now (protocol_of proto.now)) }
    ensures clean { OnOk result
        (interface_failures (signature_of sig.now) interface.now (protocol_of proto.now) ≡ []) }
    ensures first { IfErr result (λ fault. TellsFirstFailure fault
        (interface_failures (signature_of sig.now) interface.now (protocol_of proto.now))) }
{
    let mut visible = VisibleChannels::new(alloc);
    visible.enter_ports(interface.inputs.as_slice(), false)?;
    visible.enter_ports(interface.outputs.as_slice(), true)?;
    check_at(alloc, sig, proto, &mut visible, &Place::Root)?;
    check_written(alloc, interface.outputs.as_slice(), &visible)
}
