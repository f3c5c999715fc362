//! Laws of the names of registers.
ghost use Rattle.register_names.specs.Laws.{NamesAreRead, NamesAreThere};

/// Each of the names stands for one register, and is read as this.
pub fn names_are_read()
    ensures read { NamesAreRead }
    ensures there { NamesAreThere }
{}
