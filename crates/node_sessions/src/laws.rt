// What follows of the sessions of a node.
ghost use Rattle.node_sessions.specs.Causes.{SessionsHaveCauses};
ghost use Rattle.node_sessions.specs.Journals.{JournalsSayGrants};
ghost use Rattle.node_sessions.specs.Laws.{ClaimsAreKept, GrantedUnitsAreClaimed, LaterGrantsAreApart, SessionsGrantOnce};

use zk_port::{Disk, Door};

/// No two sessions of a node are granted a unit in common, and each is granted as many as it takes, up to the total.
pub fn sessions_grant_once<B: Disk, D: Door>()
    ensures { SessionsGrantOnce D.Link.state B.state }
{}

/// Each unit that is granted is claimed when the sessions end, and was not when they began.
pub fn granted_units_are_claimed<B: Disk, D: Door>()
    ensures { GrantedUnitsAreClaimed D.Link.state B.state }
{}

/// Sessions whose claims begin with those that earlier ones left are granted no unit of these.
pub fn later_grants_are_apart<D: Door, E: Door>()
    ensures { LaterGrantsAreApart D.Link E.Link }
{}

/// What was claimed stays claimed.
pub fn claims_are_kept<B: Disk, D: Door>()
    ensures { ClaimsAreKept D.Link.state B.state }
{}

/// What a crash leaves of the journal says each unit that was granted by then, and all that was claimed when the sessions began.
pub fn journals_say_grants<B: Disk, D: Door>()
    ensures { JournalsSayGrants D.Link.state B.state }
{}

/// A session that was refused units was refused for the reason that it says.
pub fn sessions_have_causes<B: Disk, D: Door>()
    ensures { SessionsHaveCauses D.Link.state B.state }
{}
