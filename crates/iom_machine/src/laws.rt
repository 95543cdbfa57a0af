ghost use Rattle.iom_machine.specs.Laws.{GrantsAreAtPages, LimitsUnchanged};
ghost use Rattle.iom_machine.specs.Returning.{ReturnedTablesAreFree};

/// A device has grants exactly where there is a page at which it holds something, or something
/// lingers.
pub fn grants_are_at_pages()
    ensures { GrantsAreAtPages }
{}

/// No event changes the limits: they are those of power-on.
pub fn limits_unchanged()
    ensures { LimitsUnchanged }
{}

/// Tables that may be given back are free then, where no device may reach them.
pub fn returned_tables_are_free()
    ensures { ReturnedTablesAreFree }
{}
