// Laws of the table of commands.
ghost use Rattle.run_laws.specs.CommandTable.{TableIs};

/// The table by which words are read has these names, these words in their order, and these defaults.
pub fn table_is()
    ensures { TableIs }
{}
