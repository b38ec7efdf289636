use ddl_class::Class;

/// A class as it is written, or the bytes that it has.
#[derive(Drop)]
pub enum TClass {
    /// The bytes from the first to the second one.
    Range(u8, u8),
    /// The bytes of either class.
    Either(Box<TClass>, Box<TClass>),
    /// All bytes that are not in the class.
    Except(Box<TClass>),
    /// A declared class.
    Declared(u32),
    /// A class parameter.
    Parameter(u32),
    /// These bytes.
    Set(Class),
}
