//! What a request is read as, whole and in pieces of one byte.
ghost use Rattle.std.specs.Prelude.{◌+◌, ◌≤◌, length};
ghost use Rattle.routes.specs.Limits.{most_body};

use decimal_rank::Memory;
use http_wire::{HttpHead, HttpRequest};
use routes::{AskReader, Keys, RouteFault, read_ask};
use rulebook::{Ask, Caller};
use std::alloc::Global;
use std::test::Fail;

/// The most bytes of a body.
const MOST_BODY: usize = 16_777_216;

/// What a request is read as: who asks, with which number, and what; or its first fault.
pub(crate) type Reading = Result<(Caller, Option<u64>, Ask), RouteFault>;

fn feed_bytes(reader: &mut AskReader, bytes: &[u8]) -> Result<(), Memory>
    requires { reader.old.fed + length bytes.now ≤ most_body }
{
    for byte in bytes {
        reader.feed(&[*byte])?;
    }
    Ok(())
}

/// What a request is read as whose body comes in pieces of one byte.
fn read_in_bytes(alloc: Global, request: HttpRequest, keys: &Keys) -> Reading
    requires { length request.body ≤ most_body }
{
    let HttpRequest {
        method,
        path,
        fields,
        body,
        close,
    } = request;
    let head = HttpHead {
        method,
        path,
        fields,
        length: body.bytes().len() as u32,
        close,
    };
    let mut reader = AskReader::new(alloc, &head, keys)?;
    feed_bytes(&mut reader, body.bytes())?;
    reader.finish()
}

/// What a request is read as, whole and in pieces of one byte.
pub(crate) fn readings(
    alloc: Global,
    request: HttpRequest,
    keys: &Keys,
) -> Result<(Reading, Reading), Fail> {
    if request.body.bytes().len() > MOST_BODY {
        return Err(Fail::from("too long"));
    }
    let whole = read_ask(alloc, &request, keys);
    let pieces = read_in_bytes(alloc, request, keys);
    Ok((whole, pieces))
}
