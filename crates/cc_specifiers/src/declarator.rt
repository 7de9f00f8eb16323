//! What a declarator declares, by the part of it next to the name (C99 6.7.5).

ghost use Rattle.std.specs.Prelude.{◌≡◌};
ghost use Rattle.cc_specifiers.specs.Declarators.{nearer as nearer_of, form_of as form_of_declr, declares_function as declares_function_of};

use cc_tree::Declr;

/// What the part of a declarator next to the name derives.
#[derive(Clone, Copy)]
pub enum Form {
    Pointer,
    Array,
    Function,
}

/// The one, or this where there is none.
fn nearer(inner: Option<Form>, form: Form) -> Option<Form>
    ensures { result ≡ nearer_of inner form }
{
    match inner {
        None => Some(form),
        Some(f) => Some(f),
    }
}

/// What the part of a declarator next to the name derives; none where there is but the name.
#[tactic(auto, unfolding(crate::specs::Declarators::form_of))]
pub fn form_of(d: &Declr) -> Option<Form>
    ensures { result ≡ form_of_declr d.now }
{
    match d {
        Declr::Nothing => None,
        Declr::Named(_) => None,
        Declr::Paren(d) => form_of(&d.get().node),
        Declr::Pointer(_, d) => nearer(form_of(&d.get().node), Form::Pointer),
        Declr::Array(d, _) => nearer(form_of(&d.get().node), Form::Array),
        Declr::Func(d, _) => nearer(form_of(&d.get().node), Form::Function),
    }
}

/// Whether it declares a function. The flag says that the specifiers name a function's type.
pub fn declares_function(base: bool, d: &Declr) -> bool
    ensures { result ≡ declares_function_of base d.now }
{
    match form_of(d) {
        None => base,
        Some(Form::Function) => true,
        Some(Form::Pointer) => false,
        Some(Form::Array) => false,
    }
}
