// The reply to `why`, to which lines are written as they come.
ghost use Rattle.std.specs.Prelude.{◌≡◌, ℕ};
ghost use Rattle.tmm_model.specs.Replies.{why_lines};

use map_core::Listener;
use replies::put_reason;
use tmm_model::{NoMemory, Seq, WhyLine};

/// The bytes of a reply to `why`, as far as its reasons were heard. No line is kept but as its
/// bytes.
#[derive(Drop)]
pub(crate) struct WhyText {
    /// The bytes.
    pub bytes: Seq<u8>,
}

impl Listener for WhyText {
    ghost Part = { ℕ };

    ghost parts_of = { why_lines };

    ghost heard = { λ s. s.bytes.items };

    fn hear(&mut self, line: WhyLine) -> Result<(), NoMemory> {
        put_reason(&mut self.bytes, &line)
    }
}
