// Laws of Boolean circuits and their programs.
ghost use Rattle.circuit_laws.specs.Circuits.{OneOnSetWires, OneMade, CircuitIsProgram, CircuitIsOrdered, GatesAreFew, ProductsAreNumbered, CircuitIsStatement, BitsSolve, BitsAreMade, SolvedByBits, SolvedIsSatisfied, SatisfiedIsSolved, OneOutcome};

/// A circuit, with some of its first inputs public, is a program.
pub fn circuit_is_program()
    ensures { CircuitIsProgram }
{}

/// No step of a circuit's program takes the value of a product before its factors are set.
pub fn circuit_is_ordered()
    ensures { CircuitIsOrdered }
{}

/// A circuit has no more inputs and gates than wires: each gate sets a wire of its own.
pub fn gates_are_few()
    ensures { GatesAreFew }
{}

/// Product i of a circuit's program has given value i, and each given value is that of a product.
pub fn products_are_numbered()
    ensures { ProductsAreNumbered }
{}

/// Claims of a circuit's outputs, over public inputs, are a statement.
pub fn circuit_is_statement()
    ensures { CircuitIsStatement }
{}

/// Bits that satisfy a circuit solve its program over the field (Yang, Sarkar, Weng and Wang, QuickSilver, ACM CCS 2021).
pub fn bits_solve()
    ensures { BitsSolve }
{}

/// Bits that satisfy a circuit are the values that its inputs make, some of which may be public.
pub fn bits_are_made()
    ensures { BitsAreMade }
{}

/// Values that solve a circuit's program over public bits are bits on every wire that is set, and these satisfy the circuit:
/// what is its own square is 0 or 1, and the equations of gates over bits are their truth tables.
pub fn solved_by_bits()
    ensures { SolvedByBits }
{}

/// Inputs that make a circuit's program give some claims are bits, and so are the claims, and the circuit gives them.
pub fn solved_is_satisfied()
    ensures { SolvedIsSatisfied }
{}

/// Input bits that make a circuit give some outputs make its program give them.
pub fn satisfied_is_solved()
    ensures { SatisfiedIsSolved }
{}

/// The input bits of a circuit determine its outputs.
pub fn one_outcome()
    ensures { OneOutcome }
{}

/// Given values determine the number of every wire that is set.
pub fn one_on_set_wires()
    ensures { OneOnSetWires }
{}

/// Public values and private inputs make one list of given values.
pub fn one_made()
    ensures { OneMade }
{}
