//! Which fields are names (up to 32 bytes), docnos (up to 64 visible bytes) and grades (digits, up
//! to 255).
ghost use Rattle.std.specs.Prelude.{◌≡◌};
ghost use Rattle.std.specs.List.{list_all};
ghost use Rattle.trec_formats.specs.Names.{is_name, is_docno, is_name_byte, is_between, grade_of};

fn is_name_byte(byte: u8) -> bool
    ensures { result ≡ is_name_byte byte }
{
    matches!(byte, b'0'..=b'9' | b'A'..=b'Z' | b'a'..=b'z' | b'.' | b'_' | b'-')
}

#[inline(never)]
fn are_name_bytes(text: &[u8]) -> bool
    ensures { result ≡ list_all is_name_byte text.now }
{
    text.iter().all(|byte| is_name_byte(*byte))
}

/// Whether a field may be the id of a topic or the name of a run.
#[tactic(auto, unfolding(crate::specs::Names::is_name))]
pub fn is_name(text: &[u8]) -> bool
    ensures { result ≡ is_name text.now }
{
    1 <= text.len() && text.len() <= 32 && are_name_bytes(text)
}

pub(crate) fn is_visible(byte: u8) -> bool
    ensures { result ≡ is_between 33 126 byte }
{
    33 <= byte && byte <= 126
}

#[inline(never)]
fn are_visible(text: &[u8]) -> bool
    ensures { result ≡ list_all (is_between 33 126) text.now }
{
    text.iter().all(|byte| is_visible(*byte))
}

pub(crate) fn has_docno_length(length: usize) -> bool
    ensures { result ≡ is_between 1 64 length }
{
    1 <= length && length <= 64
}

/// Whether a field may be the number of a document.
#[tactic(auto, unfolding(crate::specs::Names::is_docno))]
pub fn is_docno(text: &[u8]) -> bool
    ensures { result ≡ is_docno text.now }
{
    has_docno_length(text.len()) && are_visible(text)
}

/// The value of a field of digits alone, up to 255.
pub(crate) fn grade_of(text: &[u8]) -> Option<u8>
    ensures { result ≡ grade_of text.now }
{
    let mut value: u16 = 0;
    for byte in text {
        if !byte.is_ascii_digit() {
            return None;
        }
        value = value * 10 + u16::from(*byte - b'0');
        if value > 255 {
            return None;
        }
    }
    Some(value as u8)
}
