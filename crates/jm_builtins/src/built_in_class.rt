// The built-in classes by name.

ghost use Rattle.std.specs.Prelude.{◌≡◌, ◌++◌, List, ℕ, Some, slice_get};
ghost use Rattle.jm_builtins.specs.Numbers.{name_of, number_of, built_in_names};

/// A built-in class by its name, in the order of the list of built-in classes.
#[derive(Clone, Copy)]
pub enum BuiltInClass {
    Object,
    String,
    Cloneable,
    Serializable,
    System,
    PrintStream,
    Thread,
    Throwable,
    Exception,
    Error,
    RuntimeException,
    ArithmeticException,
    ArrayStoreException,
    ClassCastException,
    IllegalMonitorStateException,
    NegativeArraySizeException,
    NullPointerException,
    IndexOutOfBoundsException,
    IllegalArgumentException,
    ArrayIndexOutOfBoundsException,
    StringIndexOutOfBoundsException,
    IllegalThreadStateException,
    LinkageError,
    VirtualMachineError,
    IncompatibleClassChangeError,
    NoClassDefFoundError,
    ExceptionInInitializerError,
    AbstractMethodError,
    StackOverflowError,
}

impl BuiltInClass {
    /// Its number among the built-in classes, and so in every list of classes that begins with
    /// them.
    #[inline]
    pub const fn number(self) -> u32
        ensures number { result ≡ number_of self }
        ensures named { (others : List (List ℕ)) → slice_get (built_in_names ++ others) result ≡ Some (name_of self) }
    {
        self as u32
    }
}
