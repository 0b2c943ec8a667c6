// The message that stands at the start of what a till has written.

ghost use Rattle.std.specs.Prelude.{◌≡◌};
ghost use Rattle.halls.specs.Packets.{first_message};

// How long the longest message is that a till says, one with takings.
pub const LONGEST: usize = 16;

// The message at the start of an output: its tag, its length and a body so long.
pub fn message_in(out: &[u8]) -> &[u8]
    ensures { result.now ≡ first_message out.now }
{
    let Some((head, _)) = out.split_first_chunk::<3>() else {
        return out;
    };
    let [_, high, low] = *head;
    let end = 3 + 256 * usize::from(high) + usize::from(low);
    &out[..end.min(out.len())]
}
