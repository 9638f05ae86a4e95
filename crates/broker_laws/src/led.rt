// What the sessions of nodes come to.
ghost use Rattle.broker_laws.specs.Sessions.{SessionsAreDeeds, SessionsGrantOnce};

use zk_port::{Disk, Door};

/// All sessions that a node led are a list of its deeds, which draw what the sessions were granted.
pub fn sessions_are_deeds<B: Disk, D: Door>()
    ensures { SessionsAreDeeds D.Link.state B.state }
{}

/// No two sessions of any nodes were granted a unit in common, in whatever history their runs and the broker's are, and with whatever stops.
pub fn all_sessions_grant_once<B: Disk, C: Disk, D: Door>()
    ensures { SessionsGrantOnce D.Link B.state C.state }
{}
