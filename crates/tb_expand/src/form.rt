//! The forms by their names.
ghost use Rattle.std.specs.Prelude.{◌≡◌};
ghost use Rattle.tb_expand.specs.Words.{find, forms, later_forms};

/// The forms (R5RS 4 and 5); those of the last kind are not built yet.
#[derive(Clone, Copy, Debug)]
pub enum Form {
    Quoting,
    Closure,
    Choice,
    Assigning,
    Defining,
    Beginning,
    Binding,
    Recursive,
    Applying,
    Later,
}

/// The form of a name.
#[tactic(auto, unfolding(crate::specs::Words::forms))]
pub fn form_of(name: &[u8]) -> Option<Form>
    ensures { result ≡ find forms name.now }
{
    if name == b"quote".as_slice() {
        Some(Form::Quoting)
    } else if name == b"lambda".as_slice() {
        Some(Form::Closure)
    } else if name == b"if".as_slice() {
        Some(Form::Choice)
    } else if name == b"set!".as_slice() {
        Some(Form::Assigning)
    } else if name == b"define".as_slice() {
        Some(Form::Defining)
    } else if name == b"begin".as_slice() {
        Some(Form::Beginning)
    } else if name == b"let".as_slice() {
        Some(Form::Binding)
    } else if name == b"letrec".as_slice() {
        Some(Form::Recursive)
    } else if name == b"apply".as_slice() {
        Some(Form::Applying)
    } else {
        later_form(name)
    }
}

#[tactic(auto, unfolding(crate::specs::Words::later_forms))]
fn later_form(name: &[u8]) -> Option<Form>
    ensures { result ≡ find later_forms name.now }
{
    if name == b"let-syntax".as_slice() {
        Some(Form::Later)
    } else if name == b"letrec-syntax".as_slice() {
        Some(Form::Later)
    } else if name == b"define-syntax".as_slice() {
        Some(Form::Later)
    } else if name == b"syntax-rules".as_slice() {
        Some(Form::Later)
    } else if name == b"let*".as_slice() {
        Some(Form::Later)
    } else if name == b"cond".as_slice() {
        Some(Form::Later)
    } else if name == b"case".as_slice() {
        Some(Form::Later)
    } else if name == b"and".as_slice() {
        Some(Form::Later)
    } else if name == b"or".as_slice() {
        Some(Form::Later)
    } else if name == b"do".as_slice() {
        Some(Form::Later)
    } else if name == b"quasiquote".as_slice() {
        Some(Form::Later)
    } else {
        None
    }
}
