//! The head of an answer whose body is written: it has the body's length, and is put in front of
//! it.
ghost use Rattle.std.specs.Prelude.{◌≡◌, ◌+◌, ◌-◌, ◌≤◌, ◌++◌, true, IsTrue, IsOk, OnOk, OnErr, drop, length, take, vec_len, vec_capacity};
ghost use Rattle.http_wire.specs.Answers.{answer_text, head_text, is_status};

use decimal_rank::Memory;
use http_wire::write_head;

/// More than a head with any status and length takes.
const MOST_HEAD: usize = 300;

/// Brings what is behind the first `size` bytes to their front; there is room for it in `head`.
fn bring_to_front(text: &mut [u8], size: usize, head: &mut [u8])
    requires { length text.old ≡ size + length head.old }
    ensures { text.new ≡ drop size text.old ++ take size text.old }
{
    let count = head.len();
    head.copy_from_slice(&text[size..]);
    text.copy_within(..size, count);
    text[..count].copy_from_slice(head);
}

/// Brings what is behind the first `size` of the bytes from this place on to their front.
fn bring_forward(out: &mut Vec<u8>, before: usize, size: usize)
    requires within { before + size ≤ vec_len out.old }
    requires few { vec_len out.old ≤ before + size + 300 }
    ensures items { out.new.items ≡ take before out.old.items
        ++ (drop (before + size) out.old.items ++ take size (drop before out.old.items)) }
    ensures capacity { vec_capacity out.new ≡ vec_capacity out.old }
{
    let mut head = [0; MOST_HEAD];
    let count = out.len() - before - size;
    bring_to_front(&mut out[before..], size, &mut head[..count]);
}

/// Puts the head of an answer in front of its body, which is what there is from this place on.
pub(crate) fn put_head(
    status: u16,
    close: bool,
    before: usize,
    out: &mut Vec<u8>,
) -> Result<(), Memory>
    requires known { IsTrue (is_status status) }
    requires within { before ≤ vec_len out.old }
    ensures ok { OnOk result (out.new.items ≡ take before out.old.items
        ++ answer_text status true close (drop before out.old.items)) }
    ensures err { OnErr result (out.new.items ≡ out.old.items) }
    ensures room { vec_len out.old + length (head_text status true close (vec_len out.old - before))
        ≤ vec_capacity out.old → IsOk result }
    ensures capacity { vec_capacity out.old ≤ vec_capacity out.new }
{
    let size = out.len() - before;
    write_head(status, true, close, size, out)?;
    bring_forward(out, before, size);
    Ok(())
}
