ghost use Rattle.std.specs.Prelude.{◌≡◌};
ghost use Rattle.cc_operands.specs.RuleNumbers.{number_of};

/// A type rule, by what breaks it.
#[derive(Clone, Copy)]
pub enum Rule {
    /// A name that is used isn't declared in scope (C99 6.2.1, 6.5.1).
    Undeclared,
    /// A name is declared twice in a scope, other than as an object or function of one type and linkage
    /// (C99 6.2.2, 6.7, 3 and 4).
    DeclaredTwice,
    /// The specifiers name no type (C99 6.7.2, 2).
    NoType,
    /// Two storage classes stand together, or one stands where it has no meaning (C99 6.7.1, 6.9).
    StorageClass,
    /// An array bound isn't a constant from 1 to 65,535, or none is given (C99 6.7.5.2).
    ArrayBound,
    /// An object, member or element has no complete object type or too many bytes, or a structure is defined
    /// twice (C99 6.7, 7; 6.7.2.1, 2; 6.7.2.3; 6.7.5.2, 1).
    NoObjectType,
    /// A member name stands twice in a structure (C99 6.2.3).
    MemberTwice,
    /// A pointer to void stands anywhere but in `(void *)0`.
    PointerToVoid,
    /// A structure is a value, a parameter or a result.
    StructureValue,
    /// A function's result is an array or a function (C99 6.7.5.3, 1).
    FunctionResult,
    /// An attribute is unknown, or stands where it has no meaning.
    Attribute,
    /// An enumeration constant isn't a constant in `int`'s range (C99 6.7.2.2, 2).
    EnumerationConstant,
    /// A constant expression that is needed traps (C99 6.6, 4).
    ConstantTraps,
    /// A static initialiser is neither constant nor an address constant (C99 6.7.8, 4).
    StaticInitialiser,
    /// There are more initialisers than scalars (C99 6.7.8, 2).
    TooManyInitialisers,
    /// An initialiser's shape doesn't fit, or a string is longer than its array (C99 6.7.8, 11 to 16).
    InitialiserShape,
    /// The operand of `*` is no pointer, nor is this a device (C99 6.5.3.2, 2).
    Indirection,
    /// The operand of `&` is no place or function, or is a device (C99 6.5.3.2, 1).
    AddressOf,
    /// A subscript isn't of a pointer or array by an integer (C99 6.5.2.1, 1).
    Subscript,
    /// `.` has no structure with that member on its left (C99 6.5.2.3, 1).
    Member,
    /// `->` has no pointer to a structure with that member on its left (C99 6.5.2.3, 2).
    Arrow,
    /// What is called is no function and no pointer to one (C99 6.5.2.2, 1).
    Callee,
    /// The number of arguments differs (C99 6.5.2.2, 2).
    ArgumentCount,
    /// What is assigned isn't a place of scalar type, or is const (C99 6.5.16, 2; 6.3.2.1, 1).
    NotModifiable,
    /// A value can't be assigned (C99 6.5.16.1, 1).
    NotAssignable,
    /// An operand of an operator on integers isn't one (C99 6.5.5, 6.5.7, 6.5.10 to 6.5.12, 6.5.3.3).
    NoInteger,
    /// The operands of `+` or `-` have no sum or difference (C99 6.5.6, 2 and 3).
    NoSum,
    /// The operands of a comparison can't be compared (C99 6.5.8, 2; 6.5.9, 2).
    NoComparison,
    /// A condition, or an operand of `!`, `&&` or `||`, isn't scalar (C99 6.5.3.3, 6.5.13, 6.5.14, 6.8.4, 6.8.5).
    NoScalar,
    /// The arms of `?:` have no common type (C99 6.5.15, 3).
    NoCommonType,
    /// A cast is none that has a meaning (C99 6.5.4).
    Cast,
    /// `sizeof` has a function, void or incomplete type, or a size that size_t doesn't hold (C99 6.5.3.4, 1).
    SizeOf,
    /// `break` stands outside a loop and a `switch` (C99 6.8.6.3, 1).
    Break,
    /// `continue` stands outside a loop (C99 6.8.6.2, 1).
    Continue,
    /// A label stands elsewhere than at the top level of a `switch`'s body, twice, or with no constant
    /// (C99 6.8.1, 2; 6.8.4.2, 3).
    CaseLabel,
    /// A `switch` has no integer, its body isn't a block, or a statement stands before its first label (C99 6.8.4.2, 1).
    Switch,
    /// A `return` has a value in a void function, or none in another (C99 6.8.6.4, 1).
    ReturnValue,
    /// The value of a void expression is used (C99 6.3.2.2).
    VoidUsed,
    /// `main` isn't `int` or `void` without parameters (C99 5.1.2.2.1), or an intrinsic is defined, declared
    /// otherwise or used other than by a call.
    MainOrIntrinsic,
    /// A device isn't a volatile integer, or its constant doesn't fit a pointer.
    Device,
}

impl Rule {
    /// The number of the rule in the list of rules.
    pub fn number(self) -> u8
        ensures { result ≡ number_of self }
    {
        match self {
            Rule::Undeclared => 1,
            Rule::DeclaredTwice => 2,
            Rule::NoType => 3,
            Rule::StorageClass => 4,
            Rule::ArrayBound => 5,
            Rule::NoObjectType => 6,
            Rule::MemberTwice => 7,
            Rule::PointerToVoid => 8,
            Rule::StructureValue => 9,
            Rule::FunctionResult => 10,
            Rule::Attribute => 11,
            Rule::EnumerationConstant => 12,
            Rule::ConstantTraps => 13,
            Rule::StaticInitialiser => 14,
            Rule::TooManyInitialisers => 15,
            Rule::InitialiserShape => 16,
            Rule::Indirection => 17,
            Rule::AddressOf => 18,
            Rule::Subscript => 19,
            Rule::Member => 20,
            Rule::Arrow => 21,
            Rule::Callee => 22,
            Rule::ArgumentCount => 23,
            Rule::NotModifiable => 24,
            Rule::NotAssignable => 25,
            Rule::NoInteger => 26,
            Rule::NoSum => 27,
            Rule::NoComparison => 28,
            Rule::NoScalar => 29,
            Rule::NoCommonType => 30,
            Rule::Cast => 31,
            Rule::SizeOf => 32,
            Rule::Break => 33,
            Rule::Continue => 34,
            Rule::CaseLabel => 35,
            Rule::Switch => 36,
            Rule::ReturnValue => 37,
            Rule::VoidUsed => 38,
            Rule::MainOrIntrinsic => 39,
            Rule::Device => 40,
        }
    }
}
