// What the definitions of texts promise.
ghost use Rattle.bristol_reader.specs.Laws.{FaultOrCircuit, OneCircuit, OneFirstFault};

/// A text says one circuit at most.
pub fn one_circuit()
    ensures { OneCircuit }
{}

/// A text has one first fault at most.
pub fn one_first_fault()
    ensures { OneFirstFault }
{}

/// A text that has a fault says no circuit.
pub fn fault_or_circuit()
    ensures { FaultOrCircuit }
{}
