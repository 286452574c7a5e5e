/// What is next in the initialization of a class (JVMS 5.5).
#[derive(Clone, Copy)]
pub enum Stage {
    /// Whether there is anything to do, and the constant fields.
    Begin,
    /// The superclass's initialization.
    Superclass,
    /// `<clinit>`.
    Initializer,
    /// The class is initialized.
    End,
}
