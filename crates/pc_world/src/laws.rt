//! What holds of all scripts: each law is what a function with nothing to do ensures.

ghost use Rattle.std.specs.Prelude.{◌≡◌, ℕ, List, ◌⊎◌};
ghost use Rattle.pc_world.specs.Account.{Account};
ghost use Rattle.pc_world.specs.Events.{IsEvent};
ghost use Rattle.pc_world.specs.Runs.{IsOfForm, IsRefused, IsRun};
ghost use Rattle.pc_world.specs.Steps.{Step};
ghost use Rattle.pc_world.specs.declared.event.Event.{Event};

use pc_request::laws::{faultless_lines_are_requests, one_request_a_line, requests_have_no_fault};

/// Lines are at most one event.
pub fn one_event_a_line()
    ensures { (lines : List (List ℕ)) (first second : Event) → IsEvent lines first → IsEvent lines second → first ≡ second }
{
    one_request_a_line();
    requests_have_no_fault();
}

/// An event prints one thing in a world, and leaves one world.
pub fn one_step_an_event()
    ensures { (old : List Account) (event : Event) (p q : List (List ℕ)) (new other : List Account)
        → Step old event p new → Step old event q other → (p ≡ q) × (new ≡ other) }
{}

/// A script has at most one transcript.
pub fn one_transcript()
    ensures { (script t u : List ℕ) → IsRun script t → IsRun script u → t ≡ u }
{
    one_event_a_line();
    one_step_an_event();
}

/// A script that has a run isn't refused.
pub fn refused_or_run()
    ensures { (script t u : List ℕ) (n : ℕ) → IsRun script t → IsRefused script n u → ⊥ }
{
    one_event_a_line();
    one_step_an_event();
}

/// A script is refused at one line at most, and then with one transcript.
pub fn refused_once()
    ensures { (script t u : List ℕ) (n m : ℕ) → IsRefused script n t → IsRefused script m u → (n ≡ m) × (t ≡ u) }
{
    one_event_a_line();
    one_step_an_event();
}

/// A script of the form has a run, and no refusal.
pub fn forms_have_runs()
    ensures run { (script : List ℕ) → IsOfForm script → ((t : List ℕ) × IsRun script t) }
    ensures no_refusal { (script : List ℕ) (number : ℕ) (text : List ℕ) → IsOfForm script → IsRefused script number text → ⊥ }
{}

/// A script that has a run has the form.
pub fn runs_have_the_form()
    ensures { (script t : List ℕ) → IsRun script t → IsOfForm script }
{
    one_event_a_line();
    one_step_an_event();
}

/// A script is of the form, or is refused at a line.
pub fn form_or_refused()
    ensures { (script : List ℕ) → IsOfForm script ⊎ ((number : ℕ) × ((text : List ℕ) × IsRefused script number text)) }
{
    faultless_lines_are_requests();
    one_event_a_line();
    one_step_an_event();
}
