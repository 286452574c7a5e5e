/// The types that built-in members name.
#[derive(Clone, Copy)]
pub enum MemberType {
    Int,
    Long,
    Char,
    /// `char[]`.
    Chars,
    String,
    PrintStream,
}

/// A public method of a built-in class, of at most one parameter.
pub struct MethodRow {
    pub name: &'static str,
    pub parameter: Option<MemberType>,
    pub result: Option<MemberType>,
}

/// The methods of a built-in class.
pub enum MethodRows {
    /// `<init>()V` alone.
    Constructor,
    Rows(&'static [MethodRow]),
}

/// A field of a built-in class.
pub struct FieldRow {
    pub flags: u16,
    pub name: &'static str,
    pub field_type: MemberType,
}

/// A built-in class or interface.
pub struct ClassRow {
    pub flags: u16,
    pub name: &'static str,
    pub superclass: Option<&'static str>,
    pub interface: Option<&'static str>,
    pub fields: &'static [FieldRow],
    pub methods: MethodRows,
}
