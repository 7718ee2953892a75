// The texts of the lines.
ghost use Rattle.std.specs.Prelude.{◌≡◌, ◌≤◌, ◌<◌, ◌+◌, ◌∷◌, ◌++◌, [], Some, length, decimal, codes};
ghost use Rattle.std.specs.List.{slice_get};
ghost use Rattle.tmm_model.specs.Generator.{first_lines, event_lines, numbered, date_of};
ghost use Rattle.tmm_model.specs.Lines.{spaced};

use crate::places::{KEPT, Place};
use arrayvec::ArrayVec;
use itoa::Buffer;

/// The script begins with so many fixed lines.
pub const FIRST: u32 = 8;

// The longest line has 22 bytes and four numbers of at most ten digits each.
type Text = ArrayVec<u8, 64>;

/// A line with these bytes.
pub fn text_of(bytes: &[u8]) -> Text
    requires { length bytes.now ≤ 64 }
    ensures { result.items ≡ bytes.now }
{
    let mut text = ArrayVec::new();
    let _ = text.try_extend_from_slice(bytes);
    text
}

/// One of the fixed lines.
pub fn first_line(i: u32) -> Text
    requires { i < 8 }
    ensures { slice_get first_lines i ≡ Some result.items }
{
    text_of(match i {
        0 => b"class m idle busy",
        1 => b"kind go",
        2 => b"kind done",
        3 => b"rule r go 1 2 busy if idle",
        4 => b"rule d go 3 5 done",
        5 => b"rule i done 1 1 idle",
        6 => b"token k idle",
        _ => b"dist z start k 0 0",
    })
}

/// A line of an event.
pub fn event_line(place: Place) -> Text
    requires { place.line < length (event_lines place.event) }
    ensures { slice_get (event_lines place.event) place.line ≡ Some result.items }
{
    let Place { event, line } = place;
    if event >= KEPT {
        match line {
            0 => erase_line(event - KEPT),
            1 => declaring_line(event),
            2 => dating_line(event),
            _ => asking_line(event),
        }
    } else {
        match line {
            0 => declaring_line(event),
            1 => dating_line(event),
            _ => asking_line(event),
        }
    }
}

fn erase_line(event: u32) -> Text
    ensures { result.items ≡ spaced (codes "erase" ∷ numbered (codes "e") event ∷ []) }
{
    let mut text = ArrayVec::new();
    put(&mut text, b"erase e", event);
    text
}

fn declaring_line(event: u32) -> Text
    ensures { result.items ≡ spaced (codes "event" ∷ numbered (codes "e") event ∷ codes "go" ∷ []) }
{
    let mut text = ArrayVec::new();
    put(&mut text, b"event e", event);
    let _ = text.try_extend_from_slice(b" go");
    text
}

fn dating_line(event: u32) -> Text
    ensures { result.items ≡ spaced (codes "dist" ∷ numbered (codes "a") event ∷ codes "start" ∷ numbered (codes "e") event ∷ decimal (date_of event) ∷ decimal (date_of event) ∷ []) }
{
    // 10 apart, and from 10 on again after each 60
    let date = 10 * (event % 60) + 10;
    let mut text = ArrayVec::new();
    put(&mut text, b"dist a", event);
    put(&mut text, b" start e", event);
    put(&mut text, b" ", date);
    put(&mut text, b" ", date);
    text
}

fn asking_line(event: u32) -> Text
    ensures { result.items ≡ spaced (codes "ask" ∷ codes "idle" ∷ numbered (codes "e") event ∷ numbered (codes "e") event ∷ []) }
{
    let mut text = ArrayVec::new();
    put(&mut text, b"ask idle e", event);
    put(&mut text, b" e", event);
    text
}

// Puts these bytes and the number at the end.
fn put(text: &mut Text, front: &[u8], n: u32)
    requires { length text.old.items + length front.now + 10 ≤ 64 }
    ensures text { text.new.items ≡ text.old.items ++ front.now ++ decimal n }
    ensures short { length text.new.items ≤ length text.old.items + length front.now + 10 }
{
    let mut digits = Buffer::new();
    let _ = text.try_extend_from_slice(front);
    let _ = text.try_extend_from_slice(digits.format(n).as_bytes());
}
