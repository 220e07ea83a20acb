// A message: how many slots it takes.

#![tactic(auto)]

ghost use Rattle.std.specs.Prelude.{◌≡◌};
ghost use Rattle.message.specs.Message.{slot_total_of, number_of, total_of, slots_number_of, slots_given_of};

// The answer to a message's bytes: the slots it takes, 1 to 255, or the number of the refusal, 10.
#[derive(Drop)]
pub enum SlotTotal {
    Slots(u8),
    Refused(u8),
}

// The slot total of a message of this many bytes.
pub fn slots(bytes: usize) -> SlotTotal
    ensures answer { result ≡ slot_total_of bytes }
    ensures number { number_of result ≡ slots_number_of bytes }
    ensures total { total_of result ≡ slots_given_of bytes }
{
    if bytes == 0 {
        return SlotTotal::Refused(10);
    }
    if bytes > 12240 {
        return SlotTotal::Refused(10);
    }
    SlotTotal::Slots(((bytes + 47) / 48) as u8)
}
