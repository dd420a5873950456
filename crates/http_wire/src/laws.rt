//! What holds of a wire: bytes are requests and an end in one way at most, however they were cut,
//! and a refusal stays.
ghost use Rattle.std.specs.Prelude.{◌≡◌, ℕ, List};
ghost use Rattle.http_wire.specs.declared.messages.HttpRequest.{HttpRequest};
ghost use Rattle.http_wire.specs.Messages.{End, Front, FrontGoesOn, IsFront, Messages, ReadsOn, Stays};
ghost use Rattle.http_wire.specs.Pieces.{PiecesGoOn, RefusesAgain, WireState};

/// At most one thing stands at the front of bytes.
pub fn one_front()
    ensures { (bytes : List ℕ) (a b : Front) → IsFront bytes a → IsFront bytes b → a ≡ b }
{}

/// What stands at the front stays there where more bytes come.
pub fn fronts_stay()
    ensures { (bytes more : List ℕ) → Stays bytes more }
{}

/// The steps of a wire are what stands at the front of the bytes that it was fed, however they were
/// cut: a head and the pieces behind it make the request.
pub fn pieces_go_on()
    ensures { (at more : List ℕ) (old new : WireState) → PiecesGoOn at more old new }
{}

/// What stands at the front is the first request of the bytes, or their end.
pub fn fronts_are_messages()
    ensures { (old new more : List ℕ) → FrontGoesOn old new more }
{}

/// The requests that were given so far stand at the front of the bytes that were fed so far, and
/// what stands behind them goes on.
pub fn readings_go_on()
    ensures { (bytes : List ℕ) (requests : List HttpRequest) (old new more : List ℕ)
        → ReadsOn bytes requests old new more }
{}

/// Bytes are requests and an end in one way at most.
pub fn one_reading()
    ensures { (bytes : List ℕ) (requests others : List HttpRequest) (end other : End)
        → Messages bytes requests end
        → Messages bytes others other → (requests ≡ others) × (end ≡ other) }
{}

/// After a refusal each step is the same refusal, whatever is fed.
pub fn refusals_stay()
    ensures { (old new : WireState) (more : List ℕ) → RefusesAgain old new more }
{}
