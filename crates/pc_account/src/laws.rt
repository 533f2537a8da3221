//! What a store relies on of every account. Each law is the contract of a function that does nothing.

ghost use Rattle.pc_account.specs.Laws.{NumberedIsLegal, LegalIsSaved, OneState, BeginSuits, StepIsLegal, AcceptedIsShort};

/// A state that got a number that suits it is legal.
pub fn numbered_is_legal()
    ensures { NumberedIsLegal }
{}

/// A legal state can be saved, and its bytes are short enough and have no fault.
pub fn legal_is_saved()
    ensures { LegalIsSaved }
{}

/// What is loaded from the bytes of a legal state is the state, once it has its number.
pub fn one_state()
    ensures { OneState }
{}

/// The state of no history can be saved, and suits each number.
pub fn begin_suits()
    ensures { BeginSuits }
{}

/// An entry that may come next and fits leads from a legal state to a legal state.
pub fn step_is_legal()
    ensures { StepIsLegal }
{}

/// An entry that may come next and fits is short enough for a store.
pub fn accepted_is_short()
    ensures { AcceptedIsShort }
{}
