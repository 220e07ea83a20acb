// A record of `rehearse` that makes a call on the channel: the channel's own call, by what the record holds.

#![tactic(auto)]

ghost use Rattle.std.specs.Prelude.{◌≡◌, drop};
ghost use Rattle.fields.specs.Fields.{parts};
ghost use Rattle.number_lists.specs.NumberList.{list_of};
ghost use Rattle.calendar_fields.specs.CalendarFields.{calendar_in};
ghost use Rattle.rehearsing.specs.Rehearsing.{write_result, slot_result, bare_result, calendar_result};
ghost use Rattle.rehearsing.specs.Rehearse.{reached_by, result_by};

use calendar_fields::calendar_fields;
use number_lists::{low_bytes, numbers_from};
use rehearsing::{Next, Rehearsal, answer_with, end_with};
use write_fields::WriteFields;

// An offer, a hold, a commit or a withdrawal, by what was read of it. 19: it breaks the form. Every other answer is a line.
pub fn write_record(
    r: Rehearsal,
    fields: Option<WriteFields>,
    next: usize,
    out: &mut [u8],
    at: usize,
) -> Next
    ensures buffer { out.new ≡ (result_by r (write_result r fields) next out.old at).buffer }
    ensures answer { reached_by result ≡ (result_by r (write_result r fields) next out.old at).answer }
{
    match fields {
        None => end_with(r, 19, next, out, at),
        Some(write) => {
            let called = local_write::write(r.channel, write.index, write.writing);
            answer_with(r, called, next, out, at)
        }
    }
}

// A slot, whose picks begin after `slot,`. 19: it breaks the form. Every other answer is a line.
pub fn slot_record(r: Rehearsal, bytes: &[u8], next: usize, out: &mut [u8], at: usize) -> Next
    ensures buffer { out.new
        ≡ (result_by r (slot_result r (list_of 255 (parts (drop 5 bytes.now)))) next out.old at).buffer }
    ensures answer { reached_by result
        ≡ (result_by r (slot_result r (list_of 255 (parts (drop 5 bytes.now)))) next out.old at).answer }
{
    let Some(list) = numbers_from(bytes, 5, 255) else {
        return end_with(r, 19, next, out, at);
    };
    let picks = low_bytes(list.values);
    let called = local_slot::slot(r.channel, &picks[..list.count]);
    answer_with(r, called, next, out, at)
}

// A slot with no picks.
pub fn bare_slot(r: Rehearsal, next: usize, out: &mut [u8], at: usize) -> Next
    ensures buffer { out.new ≡ (result_by r (bare_result r) next out.old at).buffer }
    ensures answer { reached_by result ≡ (result_by r (bare_result r) next out.old at).answer }
{
    let called = local_slot::slot(r.channel, &[]);
    answer_with(r, called, next, out, at)
}

// A calendar, whose entries begin after `calendar,`. 19: it breaks the form. Every other answer is a line.
pub fn calendar_record(r: Rehearsal, bytes: &[u8], next: usize, out: &mut [u8], at: usize) -> Next
    ensures buffer { out.new
        ≡ (result_by r (calendar_result r (calendar_in (parts (drop 9 bytes.now)))) next out.old at).buffer }
    ensures answer { reached_by result
        ≡ (result_by r (calendar_result r (calendar_in (parts (drop 9 bytes.now)))) next out.old at).answer }
{
    let Some(entries) = calendar_fields(bytes, 9) else {
        return end_with(r, 19, next, out, at);
    };
    let called = local_calendar::calendar(r.channel, entries);
    answer_with(r, called, next, out, at)
}
