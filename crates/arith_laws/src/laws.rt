// What the definitions of circuits promise.
ghost use Rattle.arith_laws.specs.Laws.{ArithIsOrdered, ArithIsProgram, ArithIsStatement, OneList, SolvedIsSatisfied, UnmetIsUnsatisfied};

/// The outputs that satisfy a circuit at some inputs are one list at most.
pub fn one_list()
    ensures { OneList }
{}

/// Where an assertion is not met, no outputs satisfy the circuit at these inputs.
pub fn unmet_is_unsatisfied()
    ensures { UnmetIsUnsatisfied }
{}

/// The program of a circuit is solved, with some inputs and claims, exactly where they satisfy the circuit.
pub fn solved_is_satisfied()
    ensures { SolvedIsSatisfied }
{}

/// The program of a circuit is well formed: steps come in order, and each given value beyond the inputs is that of one product.
pub fn arith_is_program()
    ensures { ArithIsProgram }
{}

/// No step of it takes the value of a product before its factors are set.
pub fn arith_is_ordered()
    ensures { ArithIsOrdered }
{}

/// Claims of a circuit's outputs are a statement: the outputs are opened, and then the wires that are asserted, whose claims are 0.
pub fn arith_is_statement()
    ensures { ArithIsStatement }
{}
