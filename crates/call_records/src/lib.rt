// Which call a record of `rehearse` asks for, by the word that it begins with. The record is handed over without its CR LF.

#![tactic(auto)]

ghost use Rattle.std.specs.Prelude.{◌≡◌};
ghost use Rattle.call_records.specs.Words.{writing_kind_of, kind_of};

use prefixes::{begins_with, is_word};

// The call that a record asks for: an offer, a hold, a commit, a withdrawal, a slot, a slot with no picks, to set a calendar, to be shown
// the channel, or who sends in the coming slots; or it is no call.
#[derive(Clone, Copy)]
pub enum Kind {
    Offer,
    Hold,
    Commit,
    Withdraw,
    Slot,
    BareSlot,
    Calendar,
    Show,
    Coming,
    Unknown,
}

// The same of a record that writes a message record: an offer, a hold, a commit or a withdrawal.
fn writing_kind(bytes: &[u8]) -> Kind
    ensures { result ≡ writing_kind_of bytes.now }
{
    if begins_with(bytes, b"offer,") {
        return Kind::Offer;
    }
    if begins_with(bytes, b"hold,") {
        return Kind::Hold;
    }
    if begins_with(bytes, b"commit,") {
        return Kind::Commit;
    }
    if begins_with(bytes, b"withdraw,") {
        return Kind::Withdraw;
    }
    Kind::Unknown
}

// The call that a record asks for.
pub fn kind_of(bytes: &[u8]) -> Kind
    ensures { result ≡ kind_of bytes.now }
{
    if begins_with(bytes, b"slot,") {
        return Kind::Slot;
    }
    if begins_with(bytes, b"calendar,") {
        return Kind::Calendar;
    }
    if begins_with(bytes, b"coming,") {
        return Kind::Coming;
    }
    if is_word(bytes, b"show") {
        return Kind::Show;
    }
    if is_word(bytes, b"slot") {
        return Kind::BareSlot;
    }
    writing_kind(bytes)
}
