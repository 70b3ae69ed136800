ghost use Rattle.std.specs.Prelude.{◌≡◌, drop, option_map};
ghost use Rattle.std.specs.Str.{bytes_eq};
ghost use Rattle.defs_run.specs.CommandForms.{form_in, forms};
ghost use Rattle.command_orders.specs.Asked.{form_seen};

/// What a command's word, other than `sp`, `source` and `random`, says that the command does.
#[derive(Clone, Copy, PartialEq, Eq)]
pub enum Form {
    Excise,
    Add,
    Remove,
    Input,
    Run,
    Watch,
    Matches,
    Preferences,
    Print,
    Chunk,
    Selection,
    Elaborations,
    Explain,
    Stats,
    InitSoar,
    Quit,
}

/// The form of a command's word. There is none where the word is no command.
pub fn form_of(word: &[u8]) -> Option<Form>
    ensures { option_map form_seen result ≡ option_map (λ f. f.order) (form_in forms word.now) }
{
    if is_word(b"excise", word) {
        Some(Form::Excise)
    } else if is_word(b"add-wme", word) {
        Some(Form::Add)
    } else if is_word(b"remove-wme", word) {
        Some(Form::Remove)
    } else if is_word(b"input", word) {
        Some(Form::Input)
    } else if is_word(b"run", word) {
        Some(Form::Run)
    } else if is_word(b"watch", word) {
        Some(Form::Watch)
    } else if is_word(b"matches", word) {
        Some(Form::Matches)
    } else if is_word(b"preferences", word) {
        Some(Form::Preferences)
    } else if is_word(b"print", word) {
        Some(Form::Print)
    } else {
        settings_form_of(word)
    }
}

/// The form of the word of a command that changes a setting, or has no arguments.
fn settings_form_of(word: &[u8]) -> Option<Form>
    ensures { option_map form_seen result ≡ option_map (λ f. f.order) (form_in (drop 9 forms) word.now) }
{
    if is_word(b"chunk", word) {
        Some(Form::Chunk)
    } else if is_word(b"indifferent-selection", word) {
        Some(Form::Selection)
    } else if is_word(b"max-elaborations", word) {
        Some(Form::Elaborations)
    } else if is_word(b"explain", word) {
        Some(Form::Explain)
    } else if is_word(b"stats", word) {
        Some(Form::Stats)
    } else if is_word(b"init-soar", word) {
        Some(Form::InitSoar)
    } else if is_word(b"quit", word) {
        Some(Form::Quit)
    } else {
        None
    }
}

/// Whether two words are the same.
pub fn is_word(word: &[u8], other: &[u8]) -> bool
    ensures { result ≡ bytes_eq word.now other.now }
{
    word == other
}
