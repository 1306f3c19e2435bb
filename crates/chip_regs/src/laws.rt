//! Laws of fields over all registers. Each call does nothing; what it ensures is the law.

ghost use Rattle.chip_regs.specs.Laws.{FieldIsItsBits, PutIsRead, PutKeepsFields, PutKeepsBits, PutKeepsChips, PutOfSame};

/// A field reads its register's bits from the shift on, as many as it is wide.
pub fn field_is_its_bits()
    ensures { FieldIsItsBits }
{}

/// A field reads the number that was put into it.
pub fn put_is_read()
    ensures { PutIsRead }
{}

/// A put leaves every field that shares no bit with it.
pub fn put_keeps_fields()
    ensures { PutKeepsFields }
{}

/// A put leaves every bit outside its field.
pub fn put_keeps_bits()
    ensures { PutKeepsBits }
{}

/// A put leaves the chips, each with all its registers.
pub fn put_keeps_chips()
    ensures { PutKeepsChips }
{}

/// To put what a field reads changes nothing.
pub fn put_of_same()
    ensures { PutOfSame }
{}
