// The line of a refusal, written into a buffer. What does not fit is not written at all. Nothing here knows the protocol.

#![tactic(auto)]

ghost use Rattle.std.specs.Prelude.{◌≡◌};
ghost use Rattle.decimals.specs.Putting.{put_at, place_after};
ghost use Rattle.refusals.specs.Refusal.{refusal_of};

use forms::put_form;

// The line of a refusal, at place at if it fits there; gives the place after it, or at.
pub fn put_refusal(out: &mut [u8], at: usize, number: u8, place: u64) -> usize
    ensures buffer { out.new ≡ put_at out.old at (refusal_of number place) }
    ensures reached { result ≡ place_after out.old at (refusal_of number place) }
{
    put_form(out, at, b"refused,#,#", &[number as u64, place])
}
