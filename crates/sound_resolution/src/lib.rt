// A clause of a sound table (paper 01, "The channel") as code, over the messages of the table: each place of each group's resolution
// queue has two messages or more.

#![tactic(auto)]

ghost use Rattle.std.specs.Prelude.{◌≡◌};
ghost use Rattle.std.specs.List.{flat_map};
ghost use Rattle.crowds.specs.Crowds.{crowded};
ghost use Rattle.sound_resolution.specs.Resolution.{group_places_of, place_in, queues_sound};

use arrayvec::ArrayVec;
use crowds::crowded;
use drawing::{Messages, Places};
use rules::Condition;

// A place in a group's queue.
#[derive(Clone, Copy, Default)]
struct GroupPlace {
    group: u8,
    place: u16,
}

// The places that messages hold in all groups' resolution queues.
type GroupPlaces = ArrayVec<GroupPlace, 128>;

// The places that messages hold in the resolution queues.
fn resolving_places(messages: &Messages) -> GroupPlaces
    ensures { result.items ≡ group_places_of messages.now.items }
{
    let mut found = GroupPlaces::new();
    for m in messages.as_slice() {
        if let Condition::Resolving { group, place, .. } = m.condition {
            found.push(GroupPlace { group, place });
        }
    }
    found
}

// The places found in one group's queue.
fn places_in(found: &GroupPlaces, group: u8) -> Places
    ensures { result.items ≡ flat_map (place_in group) found.now.items }
{
    let mut places = Places::new();
    for at in found.as_slice() {
        if at.group == group {
            places.push(at.place);
        }
    }
    places
}

// One group's queue, of so many places.
fn group_sound(found: &GroupPlaces, group: u8, queue: u16) -> bool
    ensures { result ≡ crowded (flat_map (place_in group) found.now.items) queue }
{
    crowded(places_in(found, group).as_slice(), queue)
}

// The clause for queues of so many places, group g's at g − 1.
pub fn resolution_sound(messages: &Messages, queues: &[u16; 8]) -> bool
    ensures { result ≡ queues_sound messages.now.items queues.now }
{
    let found = resolving_places(messages);
    for (g, queue) in queues.iter().enumerate() {
        if !group_sound(&found, (g + 1) as u8, *queue) {
            return false;
        }
    }
    true
}
