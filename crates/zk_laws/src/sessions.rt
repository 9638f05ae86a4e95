// Laws of both ends of a session.
ghost use Rattle.zk_laws.specs.Sessions.{WiresFollow, ViewExists, WireKeysFit, HonestSessionHolds};

/// Given values have numbers of all wires that follow from them: the wires of a program are set one after another.
pub fn wires_follow()
    ensures { WiresFollow }
{}

/// Whatever was replied, the prover sees a view of a session.
pub fn view_exists()
    ensures { ViewExists }
{}

/// Keys that fit the pairs of the given values carry over to keys that fit the pairs of the wires (Yang, Sarkar, Weng and
/// Wang, QuickSilver, ACM CCS 2021).
pub fn wire_keys_fit()
    ensures { WireKeysFit }
{}

/// Where the keys fit the prover's pairs and the claims are what its values give, all that an honest prover sends meets the
/// verifier's equations, whatever the challenge and the key (Yang, Sarkar, Weng and Wang, QuickSilver, ACM CCS 2021).
pub fn honest_session_holds()
    ensures { HonestSessionHolds }
{}
