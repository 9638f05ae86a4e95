// The help of the program, and of each command.
ghost use Rattle.std.specs.Prelude.{◌≡◌, ◌∷◌, [], is_some, IsNone, IsSome};
ghost use Rattle.std.specs.Option.{option_map};
ghost use Rattle.command_words.specs.Help.{asks_for_help, help_of, help_of_command, help_of_word, is_help_word};
ghost use Rattle.command_words.specs.Rows.{named};
ghost use Rattle.command_words.specs.Words.{asked, texts};

use crate::table::Name;

const PROGRAM: &str = "\
zk: prove that secret input bits give the outputs of a Boolean circuit, and verify it

usage:
  zk deal NAME --units N [--trees T --height H --base K]
      deals a prover's file and a verifier's file, each with its journal
  zk eval CIRCUIT BITS
      prints the outputs of a circuit
  zk rehearse CIRCUIT BITS [--section G] [--extended] [--public BITS]
  zk rehearse --gates N --number S [--section G] [--extended]
      runs a session of both ends in one process
  zk rehearse-arith CIRCUIT VALUES [--section G] [--extended]
      the same of an arithmetic circuit
  zk rehearse-poly TEXT VALUES [--section G] [--extended]
      the same of polynomial constraints
  zk serve ADDRESS FILE CIRCUIT OUTPUTS --sessions N [--workers W] [--section G] [--timeout S] [--logs PREFIX]
           [--follow] [--public BITS]
      verifies N provers that call over TCP
  zk serve-many ADDRESS FILE STATEMENTS --sessions N [--workers W] [--section G] [--timeout S] [--logs PREFIX]
           [--follow]
      the same, each prover about one of several statements
  zk serve-arith ADDRESS FILE CIRCUIT OUTPUTS --sessions N [--workers W] [--section G] [--timeout S] [--logs PREFIX]
           [--follow]
      as `zk serve`, about an arithmetic circuit
  zk serve-poly ADDRESS FILE TEXT --sessions N [--workers W] [--section G] [--timeout S] [--logs PREFIX] [--follow]
      as `zk serve`, about polynomial constraints
  zk prove ADDRESS FILE CIRCUIT BITS OUTPUTS [--timeout S] [--public BITS]
      proves to a verifier over TCP
  zk prove-arith ADDRESS FILE CIRCUIT VALUES OUTPUTS [--timeout S]
      the same about an arithmetic circuit
  zk prove-poly ADDRESS FILE TEXT VALUES [--timeout S]
      the same about polynomial constraints
  zk audit CIRCUIT OUTPUTS PROVERFILE VERIFIERFILE LOG [--public BITS]
      finds the inputs that an accepted session fixes, or why it fixes none
  zk audit-arith CIRCUIT OUTPUTS PROVERFILE VERIFIERFILE LOG
      the same of a session about an arithmetic circuit
  zk migrate SIDE FILE
      brings the journal of a dealt file that an earlier version made to the form of this one
  zk status FILE [CIRCUIT] [--node K]
      says how many units of a dealt file are left, and how many sessions they are enough for
  zk node FILE K
      makes node K of a verifier's file: a journal of the units that it claims
  zk broker ADDRESS FILE --asks N [--timeout S] [--follow]
      leases blocks of a verifier's units to the nodes that call over TCP
  zk serve-node ADDRESS BROKER FILE CIRCUIT OUTPUTS --node K --sessions N [--timeout S] [--follow]
      as `zk serve`, with units of blocks that the broker at BROKER leases to node K
  zk COMMAND --help
      says more about a command
  zk --version

BITS and OUTPUTS are words of 0 and 1, in order of wires, or `none`, or `@NAME` for those in the file NAME, so
that private bits stand in no list of processes. VALUES, and OUTPUTS of an arithmetic circuit, are files of elements.
Options stand anywhere after the command.

statuses:
  0  done, and accepted
  1  not accepted, unsatisfied, or no inputs found
  2  the words are those of no command
  3  a file, or a number of bits, is refused
  4  a file, the network or the output failed
  5  a journal failed, or is full
  6  the dealt units are used up
  7  memory was missing
  8  the verifier broke the protocol
  9  more units are needed than a session may have
";

pub const DEAL: &str = "\
usage: zk deal NAME --units N [--trees T --height H --base K]

Deals NAME.prover and NAME.verifier, with the journals NAME.prover.journal and NAME.verifier.journal. Files of these
names are replaced. A session uses units; a direct unit has 64 correlations. With the three options the files are
extended: a unit has T times 2^H correlations, and T trees of height H over K dealt correlations more. For use these are
918, 9 and 32768; with smaller bases the files are for trials, and hide nothing.

  --units N    1 to 2^40; no file may have more than 1 GiB
  --trees T    1 to 1024
  --height H   1 to 16
  --base K     10 to 65536

example: zk deal /tmp/demo --units 16

statuses: 0 done, 4 a file or the output failed, 7 memory was missing
";

pub const EVAL: &str = "\
usage: zk eval CIRCUIT BITS

Prints the outputs of the circuit in the file CIRCUIT at the input bits: BITS, or with `@NAME` those in the file
NAME.

example: zk eval examples/and.txt 11

statuses: 0 done, 3 the circuit or the number of bits is refused, 4 a file or the output failed, 7 memory was missing
";

pub const REHEARSE: &str = "\
usage: zk rehearse CIRCUIT BITS [--section G] [--extended] [--public BITS]
       zk rehearse --gates N --number S [--section G] [--extended]

Runs an honest session of both ends in one process, over files that are dealt for it and never stored: over the circuit
in the file CIRCUIT, or over one of N gates that is drawn from the number S. `@NAME`, as BITS or behind --public,
stands for the bits in the file NAME.

  --section G      products that are checked at once, 1 to 1048576, which is the default
  --extended       deals extended files: 8 trees of height 10 and a base of 64
  --public BITS    the first input bits, which both ends know; BITS are then the others
  --gates N        1 to 1048512
  --number S       below 2^64

example: zk rehearse examples/and.txt 11 --section 1

statuses: 0 accepted, 3 the circuit or a number of bits is refused, 4 a file or the output failed, 7 memory was missing,
  9 more units are needed than a session may have
";

pub const REHEARSE_ARITH: &str = "\
usage: zk rehearse-arith CIRCUIT VALUES [--section G] [--extended]

As `zk rehearse`, over the arithmetic circuit in the file CIRCUIT, whose wires are integers modulo 2^61 - 1. The file
VALUES has the input elements: numbers below 2^61 - 1 in decimal, with blanks between.

  --section G      products that are checked at once, 1 to 1048576, which is the default
  --extended       deals extended files: 8 trees of height 10 and a base of 64

example: zk rehearse-arith circuit.txt values.txt --section 1

statuses: 0 accepted, 1 an assertion of the circuit fails, 3 the circuit, a value or their number is refused, 4 a file or
  the output failed, 7 memory was missing, 9 more units are needed than a session may have
";

pub const REHEARSE_POLY: &str = "\
usage: zk rehearse-poly TEXT VALUES [--section G] [--extended]

As `zk rehearse`, over the polynomial constraints in the file TEXT: the numbers of variables and of constraints, and then
for each constraint its number of terms, and for each term its coefficient, its number of factors, and the numbers of its
factors' variables, from 0. Each constraint is to be 0 modulo 2^61 - 1. The file VALUES has the variables' values: numbers
below 2^61 - 1 in decimal, with blanks between.

  --section G      what the grant says of sections, 1 to 1048576, which is the default
  --extended       deals extended files: 8 trees of height 10 and a base of 64

example: zk rehearse-poly examples/square.txt examples/square.values

statuses: 0 accepted, 1 a constraint is not met, 3 the constraints, a value or their number is refused, 4 a file or the
  output failed, 7 memory was missing, 9 more units are needed than a session may have
";

pub const SERVE: &str = "\
usage: zk serve ADDRESS FILE CIRCUIT OUTPUTS --sessions N [--workers W] [--section G] [--timeout S] [--logs PREFIX]
           [--follow] [--public BITS]

Listens at ADDRESS and verifies a session with each of N provers: that the prover knows input bits for which the
circuit gives OUTPUTS. FILE is the dealt verifier's file; its units are leased in FILE.journal, each once.
`@NAME`, as OUTPUTS or behind --public, stands for the bits in the file NAME.

  --sessions N     1 to 65536
  --workers W      sessions at once, 1 to 1024; the default is 4
  --section G      products that are checked at once, 1 to 1048576, which is the default
  --timeout S      seconds for which a silent prover is waited for, 1 to 86400; the default is 120
  --logs PREFIX    stores each session's log as PREFIX.UNIT, by its first unit
  --follow         says on standard error where it listens, what is left, and each session's line when it ends
  --public BITS    the first input bits, which both ends know

example: zk serve 127.0.0.1:4000 /tmp/demo.verifier examples/and.txt 1 --sessions 1

statuses: 0 all accepted, 1 some session was not, 3 a file or a number of bits is refused, 4 a file, the network or the
  output failed, 5 the journal failed, 6 the units are used up, 7 memory was missing, 9 more units are needed than a
  session may have
";

pub const SERVE_MANY: &str = "\
usage: zk serve-many ADDRESS FILE STATEMENTS --sessions N [--workers W] [--section G] [--timeout S] [--logs PREFIX]
           [--follow]

As `zk serve`, where each prover may prove any one of several statements. The file STATEMENTS has 1 to 256 lines
`CIRCUIT PUBLIC OUTPUTS`: the file of a circuit, its public input bits or `none`, and the claimed outputs.

example: zk serve-many 127.0.0.1:4000 /tmp/demo.verifier statements.txt --sessions 2

options and statuses: those of `zk serve`, but for --public
";

pub const SERVE_ARITH: &str = "\
usage: zk serve-arith ADDRESS FILE CIRCUIT OUTPUTS --sessions N [--workers W] [--section G] [--timeout S] [--logs PREFIX]
           [--follow]

As `zk serve`, about an arithmetic circuit: that each prover knows input elements for which the circuit in the file CIRCUIT
gives the elements in the file OUTPUTS, and which meet its assertions. OUTPUTS has numbers below 2^61 - 1 in decimal, with
blanks between.

example: zk serve-arith 127.0.0.1:4000 /tmp/demo.verifier examples/balances.txt outputs.txt --sessions 1

options and statuses: those of `zk serve`, but for --public; 3 also where an output or their number is refused
";

pub const SERVE_POLY: &str = "\
usage: zk serve-poly ADDRESS FILE TEXT --sessions N [--workers W] [--section G] [--timeout S] [--logs PREFIX] [--follow]

As `zk serve`, about polynomial constraints: that each prover knows values that meet all constraints in the file TEXT.

example: zk serve-poly 127.0.0.1:4000 /tmp/demo.verifier examples/square.txt --sessions 1

options and statuses: those of `zk serve`, but for --public; --section sets what the grant says alone
";

pub const PROVE: &str = "\
usage: zk prove ADDRESS FILE CIRCUIT BITS OUTPUTS [--timeout S] [--public BITS]

Proves to the verifier at ADDRESS that there are input bits for which the circuit gives OUTPUTS. FILE is the dealt
prover's file; the units that are used are claimed in FILE.journal, each once. `@NAME`, as BITS, as OUTPUTS or
behind --public, stands for the bits in the file NAME, so that private bits stand in no list of processes.

  --timeout S      seconds for which a silent verifier is waited for, 1 to 86400; the default is 120
  --public BITS    the first input bits, which both ends know; BITS are then the others

example: zk prove 127.0.0.1:4000 /tmp/demo.prover examples/and.txt @/tmp/bits.txt 1

statuses: 0 accepted, 1 rejected, or the bits do not give the outputs, 3 a file or a number of bits is refused, 4 a file,
  the network or the output failed, 5 the journal failed or is full, 7 memory was missing, 8 the verifier broke the
  protocol
";

pub const PROVE_ARITH: &str = "\
usage: zk prove-arith ADDRESS FILE CIRCUIT VALUES OUTPUTS [--timeout S]

As `zk prove`, about an arithmetic circuit: that there are input elements for which the circuit in the file CIRCUIT gives
the elements in the file OUTPUTS, and which meet its assertions. Those in the file VALUES are used. Both files have numbers
below 2^61 - 1 in decimal, with blanks between.

example: zk prove-arith 127.0.0.1:4000 /tmp/demo.prover examples/balances.txt examples/balances.values outputs.txt

options and statuses: those of `zk prove`, but for --public; 1 also where the elements fail an assertion, and 3 where an
  element or their number is refused
";

pub const PROVE_POLY: &str = "\
usage: zk prove-poly ADDRESS FILE TEXT VALUES [--timeout S]

As `zk prove`, about polynomial constraints: that there are values that meet all constraints in the file TEXT. Those in the
file VALUES are used: numbers below 2^61 - 1 in decimal, with blanks between.

example: zk prove-poly 127.0.0.1:4000 /tmp/demo.prover examples/square.txt examples/square.values

options and statuses: those of `zk prove`, but for --public; 1 also where a constraint is not met, and 3 where a value or
  their number is refused
";

pub const AUDIT: &str = "\
usage: zk audit CIRCUIT OUTPUTS PROVERFILE VERIFIERFILE LOG [--public BITS]

Finds, from both dealt files and a session's log, the input bits that an accepted session fixes, or why it fixes none.
`@NAME`, as OUTPUTS or behind --public, stands for the bits in the file NAME.

  --public BITS    the first input bits, which both ends knew

example: zk audit examples/and.txt 1 /tmp/demo.prover /tmp/demo.verifier /tmp/demo.0

statuses: 0 the inputs are found, 1 they are not, 3 a file, the log or a number of bits is refused, 4 a file or the output
  failed, 7 memory was missing
";

pub const AUDIT_ARITH: &str = "\
usage: zk audit-arith CIRCUIT OUTPUTS PROVERFILE VERIFIERFILE LOG

As `zk audit`, of a session about the arithmetic circuit in the file CIRCUIT, with the claimed outputs in the file OUTPUTS:
finds the input elements that an accepted session fixes, or why it fixes none.

example: zk audit-arith examples/balances.txt outputs.txt /tmp/demo.prover /tmp/demo.verifier /tmp/demo.0

statuses: those of `zk audit`; 3 also where an output or their number is refused
";

pub const MIGRATE: &str = "\
usage: zk migrate SIDE FILE

Migrates FILE.journal, the journal of the dealt file FILE, in place: from the form of one area, as earlier versions made
it, to that of two areas, which `zk prove` and `zk serve` need. SIDE is `prover` or `verifier`, whose file it is. A crash
at any moment leaves a journal that says the same, and a second migration changes nothing.

example: zk migrate prover /tmp/demo.prover

statuses: 0 migrated, now or before, 3 the file or the journal is refused, 4 a file or the output failed, 5 the journal
  failed, 7 memory was missing
";

pub const STATUS: &str = "\
usage: zk status FILE [CIRCUIT] [--node K]

Says how many units of the dealt file FILE are left, by its journal FILE.journal, in lines: `id HEX`, the same for
both files of a dealing; `units N direct`, or `units N extended T H K`; `used U left L`; and, with the circuit in
the file CIRCUIT, `sessions N`: for how many sessions of it these are enough, or `sessions at most N` where FILE is
a prover's. Nothing is written. A service that runs has the journal, and the status is then 5.

  --node K         by the journal FILE.node.K of node K of a verifier's file, 0 to 1023: `used U` are the units that it
                   claimed, and `left L` all others, of which no more are free; `sessions at most N`

example: zk status x.verifier adder64.txt

statuses: 0 done, 3 a file or the journal is refused, 4 a file or the output failed, 5 the journal failed, 7 memory
  was missing
";

pub const NODE: &str = "\
usage: zk node FILE K

Makes node K, 0 to 1023, of the verifier's file FILE: stores FILE.node.K, the blank journal of the units that it claims, in
place of one that is there, and says `node K`. A node number has one journal for ever: one that is made anew, of a node that
claimed units, lets it claim them again.

example: zk node /tmp/demo.verifier 3

statuses: 0 stored, 3 the file is refused, 4 a file or the output failed, 7 memory was missing
";

pub const BROKER: &str = "\
usage: zk broker ADDRESS FILE --asks N [--timeout S] [--follow]

Listens at ADDRESS and answers a want of each of N nodes that call, by a block of the units of the verifier's file FILE, or by
where they end. Units are leased in FILE.journal, each once, 16 or a multiple of it at a time. A want that a node sends again
gets the same block, while this broker runs. In a line for each node, in order: `want NODE NUMBER block A..B`, `want NODE
NUMBER out A`, or `no want` and why.

  --asks N         1 to 65536
  --timeout S      seconds for which a silent node is waited for, 1 to 86400; the default is 120
  --follow         says on standard error where it listens, what is left, and each line when the node is answered

example: zk broker 127.0.0.1:4100 /tmp/demo.verifier --asks 4

statuses: 0 all wants got blocks, 1 some node sent no want, 3 the file is refused, 4 a file, the network or the output
  failed, 5 the journal failed, 6 the units are used up, 7 memory was missing
";

pub const SERVE_NODE: &str = "\
usage: zk serve-node ADDRESS BROKER FILE CIRCUIT OUTPUTS --node K --sessions N [--timeout S] [--follow]

As `zk serve`, by node K of the verifier's file FILE: sessions are led one after another, with units of the block that the node
holds. Where too few are left there, the node asks the broker at BROKER for another, 64 times at most, and claims it in
FILE.node.K before it uses any of it; what was left of the block before is burnt. `zk node` makes that journal.

  --node K         0 to 1023
  --sessions N     1 to 65536
  --timeout S      seconds for which a silent prover or broker is waited for, 1 to 86400; the default is 120
  --follow         says on standard error where it listens, what is left, and each session's line when it ends

example: zk serve-node 127.0.0.1:4000 127.0.0.1:4100 /tmp/demo.verifier examples/and.txt 1 --node 3 --sessions 2

statuses: 0 all accepted, 1 some session was not, or got no block, 3 a file or a number of bits is refused, 4 a file, the
  network or the output failed, 5 the journal failed, 7 memory was missing, 9 more units are needed than a session may have
";

const VERSION: &str = "zk 1.0\n";

/// The help that the words ask for: `--help`, `-h`, `--version` or `-V` alone, or `--help` after a command's name. No valid words do.
pub fn help_text(words: &[String]) -> Option<&'static str>
    ensures text { option_map (λ text. text.now) result ≡ help_of (texts words.now) }
    ensures some { is_some result ≡ asks_for_help (texts words.now) }
    ensures valid { IsSome (asked (texts words.now)) → IsNone result }
{
    match words {
        [word] => program_help(word),
        [name, word] if word.as_str() == "--help" => command_help(name),
        _ => None,
    }
}

/// The help that a lone word asks for.
#[tactic(auto, unfolding(crate::specs::Rows::named))]
fn program_help(word: &str) -> Option<&'static str>
    ensures text { option_map (λ text. text.now) result ≡ help_of_word word.now }
    ensures some { is_some result ≡ is_help_word word.now }
    ensures valid { IsSome (asked (word.now ∷ [])) → IsNone result }
{
    match word {
        "--help" | "-h" => Some(PROGRAM),
        "--version" | "-V" => Some(VERSION),
        _ => None,
    }
}

/// The help of a command.
fn command_help(name: &str) -> Option<&'static str>
    ensures text { option_map (λ text. text.now) result ≡ help_of_command name.now }
    ensures some { is_some result ≡ is_some (named name.now) }
{
    Some(Name::named(name)?.row().help)
}
