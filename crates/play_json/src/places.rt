//! The words of places.

ghost use Rattle.std.specs.Prelude.{◌≡◌};
ghost use Rattle.play_json.specs.Names.{fault_words, limit_words, place_words};

use zcore::{Fault, Limit, Place};

/// The words by which an object says where the machine is.
pub(crate) fn place_words(place: Place) -> &'static str
    ensures { result.now ≡ place_words place }
{
    match place {
        Place::Waiting => "waiting",
        Place::Quit => "quit",
        Place::Limit(limit) => limit_words(limit),
        Place::Fault(fault) => fault_words(fault),
    }
}

/// The words of a limit: those of its notice.
fn limit_words(limit: Limit) -> &'static str
    ensures { result.now ≡ limit_words limit }
{
    match limit {
        Limit::Fuel => "limit turn too long",
        Limit::Calls => "limit calls too deep",
        Limit::Text => "limit text too long",
    }
}

/// The words of a machine fault, with its number.
fn fault_words(fault: Fault) -> &'static str
    ensures { result.now ≡ fault_words fault }
{
    match fault {
        Fault::Opcode => "fault M1",
        Fault::Code => "fault M2",
        Fault::Read => "fault M3",
        Fault::Write => "fault M4",
        Fault::StackEmpty => "fault M5",
        Fault::StackFull => "fault M6",
        Fault::Division => "fault M7",
        Fault::Object => "fault M8",
        Fault::Property => "fault M9",
        Fault::Character => "fault M10",
        Fault::Return => "fault M11",
        Fault::Buffer => "fault M12",
    }
}
