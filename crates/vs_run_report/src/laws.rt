//! What an app may wait for; worked reports of runs, and worked lines of loads.

ghost use Rattle.std.specs.Prelude.{◌≡◌, ◌<◌, ◌+◌, ◌==◌, ℕ, true, false, List, [], ◌∷◌, Option, Some, codes, slice_get};
ghost use Rattle.vs_script.specs.{App.{Act, Close, Connect, Exchange}, Data.Fill};
ghost use Rattle.vs_flow.specs.Connection.{Connection};
ghost use Rattle.vs_page.specs.Log.{Log};
ghost use Rattle.laws_driver.specs.Carried.Calls.{Made};
ghost use Rattle.vs_apps_parts.specs.{Scripts.{calls_in, calls_next, told_in}, Told.step_wait, Journals.{wait_noted, wait_place}, declared.journal.Entry.Entry};
ghost use Rattle.vs_apps_parts.specs.declared.{journal.WaitsFor.WaitsFor, progress.{AppState.AppState, Progress.Progress}};
ghost use Rattle.vs_run_report.specs.{Endings.ending_of, Right.may_wait, declared.ending.Ending.TheVariants.Waited, Examples.{hello_is_right, hello_printed, hello_says}};
ghost use Rattle.vs_run_report.specs.Examples.{hello_status, served_printed, served_says, silent_printed, silent_says, silent_status, swapped_is_right};
ghost use Rattle.vs_run_report.specs.Load.{all_matched, load_script, matches};

/// A step that waits does so for what its instruction may wait for.
pub fn law_of_waits()
    ensures { (act : Act) (p : Progress) (made : List Made) (why : WaitsFor) → calls_in made ≡ calls_next act p
        → step_wait (told_in made) ≡ Some why → may_wait act why ≡ true }
{}

/// An app that isn't done, and whose wait is noted, ended so: it waits for that, at the instruction that it is at. A noted wait of another
/// app changes nothing of how an app ended.
pub fn law_of_noted_waits()
    ensures waits { (count k : ℕ) (why : WaitsFor) (state : AppState) (entries : List Entry) → state.progress.at < count
        → ending_of count (record state { waiting = Some (wait_place k state.waiting entries) }) (wait_noted k why state.waiting entries)
        ≡ Waited why (state.progress.at + 1) }
    ensures others { (count k place : ℕ) (why : WaitsFor) (last : Option ℕ) (state : AppState) (entries : List Entry) (e : Entry)
        → state.waiting ≡ Some place → slice_get entries place ≡ Some e → (e.app == k) ≡ false
        → ending_of count state (wait_noted k why last entries) ≡ ending_of count state entries }
{}

/// Reports of runs: an app that is done, one that waits, and two of which a client of the host connects to the second.
pub fn worked_reports()
    ensures done { hello_says ≡ hello_printed }
    ensures waits { silent_says ≡ silent_printed }
    ensures accepts { served_says ≡ served_printed }
    ensures status { hello_status ≡ 0 }
    ensures status_of_waits { silent_status ≡ 5 }
    ensures right { hello_is_right }
    // A report that swaps two connections of one pair of ports isn't, whichever connections ids were given to.
    ensures swapped { (opened : ℕ → Connection) (log : Log) → swapped_is_right opened log → ⊥ }
{}

/// Loads.
pub fn worked_loads()
    ensures sixteen { all_matched 16 100000 ≡ codes "conns 16 bytes 1600000 matched 1600000\n" }
    ensures nothing { all_matched 1 0 ≡ codes "conns 1 bytes 0 matched 0\n" }
    ensures many { all_matched 64 1000 ≡ codes "conns 64 bytes 64000 matched 64000\n" }
    ensures apps { load_script 255 2 1000
        ≡ (Connect 7 ∷ Exchange (Fill 1000 255) ∷ Close ∷ []) ∷ (Connect 7 ∷ Exchange (Fill 1000 30) ∷ Close ∷ []) ∷ [] }
    ensures matched { matches (codes "load") (codes "lead") ≡ 3 }
    ensures shorter { matches (codes "load") (codes "lo") ≡ 2 }
{}
