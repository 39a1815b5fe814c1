//! Laws of checks and of the form of answers, each the contract of a function with an empty body.
ghost use Rattle.std.specs.Prelude.{◌≡◌, ℕ, false, List};
ghost use Rattle.ir_model.specs.Graph.{Adjacency};
ghost use Rattle.ir_core.specs.declared.{built.Install.Install, event.Step.Step, opening.Opening.Opening};
ghost use Rattle.ir_core.specs.Installed.{AreInstallsOf};
ghost use Rattle.ir_script.specs.Script.{Listing};
ghost use Rattle.ir_cli.specs.{Answer.Answer, declared.words.{Sub.Sub, Words.Words}};
ghost use Rattle.ir_answer.specs.{Agreed.{HaveSamePlans, HaveOneAnswer}, Asked.CheckAnswers, Checks.{AnswersCheck, AnswersChecked}, Formed.asked_form};

/// Two lists of installs of one opening and one list of steps have the same plans. So it is one by which of them a
/// trace is checked.
pub fn installs_have_the_same_plans()
    ensures { (opening : Opening) (steps : List Step) (one other : List Install)
        → AreInstallsOf opening steps one → AreInstallsOf opening steps other
        → HaveSamePlans opening.topology one other }
{}

/// A check has one right answer, apart from want of memory. So it is for a graph, a script, a trace and a root; for a
/// graph, the lines of a script and a trace; and for the texts of the inputs. It is `ok N` of one N, one finding, or
/// one refusal.
pub fn check_has_one_answer()
    ensures replayed { (g : Adjacency) (words : Words) (script : Listing Step) (trace : List ℕ) (root : ℕ)
        → HaveOneAnswer (AnswersCheck g words script trace root) }
    ensures checked { (words : Words) (script : List (List ℕ)) (trace : List ℕ) (g : Adjacency)
        → HaveOneAnswer (AnswersChecked words script trace g) }
    ensures texts { (words : Words) (texts : List (List ℕ)) → HaveOneAnswer (CheckAnswers words texts) }
{}

/// Where the words ask for no JSON, an answer in the form that they ask for is the answer.
pub fn text_is_as_it_was()
    ensures { (sub : Sub) (words : Words) (plain : Answer) → words.json ≡ false
        → asked_form sub words plain ≡ plain }
{}
