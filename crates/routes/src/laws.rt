//! What holds of the readings: the table allows each role what the rules do, and a request is read
//! in one way at most.
ghost use Rattle.std.specs.Prelude.{◌≡◌, List, Result};
ghost use Rattle.http_wire.specs.declared.messages.HttpRequest.{HttpRequest};
ghost use Rattle.routes.specs.declared.faults.RouteFault.{RouteFault};
ghost use Rattle.routes.specs.declared.keys.KeyRow.{KeyRow};
ghost use Rattle.routes.specs.Asks.{Asked, Reads};
ghost use Rattle.routes.specs.PathTable.RoleRules.{RolesAreTheRules};

use trec_formats::{one_rankable_reading, one_topics_reading};

/// A role may ask what is asked at a row of the table exactly where the rules say so.
pub fn roles_are_the_rules()
    ensures { RolesAreTheRules }
{}

/// A request is read in one way at most: as what it asks, or as its first fault.
pub fn one_request_reading()
    ensures { (request : HttpRequest) (keys : List KeyRow) (a b : Result Asked RouteFault)
        → Reads request keys a → Reads request keys b → a ≡ b }
{
    one_rankable_reading();
    one_topics_reading();
}
