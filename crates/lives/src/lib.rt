//! The lives of a house's files: from one run of the program to the next, and on.
//!
//! Read `specs/Lives.antt`. A run finds a house (`runs_find_houses`) and leaves a life
//! (`runs_leave_lives`), runs leave the lives of a history (`runs_leave_histories`), and twin lives are
//! told alike (`twin_lives_are_told_alike`). The laws after these say that what the program does over a
//! house in a file is such a run.
#![tactic(auto)]

ghost use Rattle.std.specs.Prelude.{◌≡◌, ◌⊎◌, ◌∷◌, ℕ, List, []};
ghost use Rattle.auction_runs.specs.Listed.{IsOrderedOver};
ghost use Rattle.auction_runs.specs.Over.{IsOver, IsReadOver};
ghost use Rattle.auction_runs.specs.Runs.{HasDone, IsMadeBy, IsServedOver, IsUpgradedAs, MayHaveSetTable};
ghost use Rattle.auction_words.specs.Houses.{IsSetBy};
ghost use Rattle.auction_words.specs.declared.command_line.HouseWords.{HouseWords};
ghost use Rattle.house_laws.specs.Alike.{AreAlike};
ghost use Rattle.house_laws.specs.Lives.{AreTwinLives, Life};
ghost use Rattle.house_rows.specs.declared.settings.Settings.{Settings};
ghost use Rattle.house_rows.specs.History.{History};
ghost use Rattle.house_rows.specs.Tables.{tables_of};
ghost use Rattle.house_rows.specs.Verdict.{IsHistory};
ghost use Rattle.lives.specs.Exchanges.{TakesAs};
ghost use Rattle.lives.specs.Lives.{Answers, AreInTurn, AreLivesOf, AreRuns, AreToldAlike, EndsAs};
ghost use Rattle.lives.specs.Lives.{FindsHistory, FindsTables, HoldHistory, IsRun, IsRunTo};
ghost use Rattle.lives.specs.Lives.{IsUnended, LeaveHistories, LeavesLife, MayFind, MayList, MayServe};
ghost use Rattle.lives.specs.Lives.{HoldsToldHouse, MaySet, Run, over_disk};
ghost use Rattle.office.specs.declared.lister.Lister.{Lister};
ghost use Rattle.settle.specs.declared.zone.Zone.{Zone};
ghost use Rattle.site.specs.Histories.{Steps};
ghost use Rattle.site.specs.Lives.{served_replies};
ghost use Rattle.site.specs.Runs.{at_places, meant};
ghost use Rattle.site_connections.specs.Turns.{HasTakenSome, Takes};
ghost use Rattle.site_request.specs.declared.asked.Asked.{Asked};
ghost use Rattle.sqlite.specs.Files.{HoldsDatabase};
ghost use Rattle.sqlite_disk.specs.declared.Files.{Files};
ghost use Rattle.sqlite_store.specs.declared.store.FileStore.{FileStore};
ghost use Rattle.sqlite_trees.specs.Tree.{Trees};
ghost use Rattle.sqlite_wal.specs.Files.{outcomes};
ghost use Rattle.sqlite_wal.specs.Reads.{AreClean};
ghost use Rattle.sqlite_wal.specs.Recovery.{Image};
ghost use Rattle.store.specs.Closing.{IsEnded, IsLeft, MayHold};
ghost use Rattle.store.specs.InOrder.{over_order};
ghost use Rattle.store.specs.Kept.{House, IsHonest, MayLeave, content, is_failed};
ghost use Rattle.store_files.specs.Opened.{IsMade, IsOpened, IsUpgraded};
ghost use Rattle.store_files.specs.InOrder.{FindsHouse, HoldsTables, shown_house, tables_after};
ghost use Rattle.store_house.specs.Named.{tables_held};
ghost use Rattle.tree_order.specs.declared.renumbered.Renumbered.{Renumbered};

use house_rows::Keep;
use site_connections::Connections;
use sqlite_disk::Disk;
use tcp::Listen;

/// A run is over files that hold a house: where its disk was honest, the tables with which its keep was
/// opened are those of a house that is found in them. So over an empty file, or over one that is no
/// database, there is none. So it is of a run whose keep could not be ended, where an opening after a
/// crash may find anything in the store that is left.
pub fn runs_find_houses<D: Disk>()
    ensures ended { (zone : Zone) (image left : Image) (run : Run)
        → (was : IsRun D.Disk zone image run left)
        → FindsHouse image (content over_order was.opened) }
    ensures unended { (zone : Zone) (image : Image) (run : Run) (files : Files D)
        → (was : IsUnended D.Disk zone image run files) → (db : Trees)
        → MayFind was.last files was.ended db
        → FindsHouse image (content over_order was.opened) }
{}

/// Files that held a history hold one after a life: of whatever an opening, a run over the keep, and then
/// a crash or an end made of them, there is a life of the run, and they hold the history after it.
pub fn runs_leave_lives<D: Disk>()
    ensures { (settings : Settings) (zone : Zone) (image left : Image) (run : Run)
        → IsRun D.Disk zone image run left → LeavesLife settings zone image run left }
{}

/// Where a keep could not be ended, what an opening after a crash may find in the store that is left has
/// the tables of the history after a life of its run, by their names.
pub fn unended_runs_leave_lives<D: Disk>()
    ensures { (settings : Settings) (zone : Zone) (h : History) (image : Image) (run : Run)
        (files : Files D) → IsHistory settings h → HoldHistory settings h image
        → (was : IsUnended D.Disk zone image run files) → (db : Trees)
        → MayFind was.last files was.ended db
        → FindsHistory settings zone h run (tables_held db) }
{}

/// Files that held a history hold one after any number of runs, each over what the one before left of the files.
pub fn runs_leave_histories()
    ensures { (settings : Settings) (zone : Zone) (h : History) (image left : Image)
        (runs : List Run) → IsHistory settings h → HoldHistory settings h image
        → AreRuns settings zone image runs left
        → ∥ LeaveHistories settings zone h runs left ∥₁ }
{}

/// Of two lists of runs whose lives are twins for a member, from histories that are alike for it, each
/// tells the member the same, life by life, whatever others sealed and whichever crashes there were.
pub fn twin_lives_are_told_alike()
    ensures { (settings : Settings) (zone : Zone) (c : ℕ) (h k : History)
        (runs others : List Run) (lives more : List (Life Asked))
        → AreAlike settings c h k → AreTwinLives meant settings c h k lives more
        → AreLivesOf settings zone h runs lives → AreLivesOf settings zone k others more
        → AreToldAlike c runs lives others more }
{}

/// Two runs tell a member alike only where it got the same replies from both: those at its places among
/// the first that were served, of as many messages as were answered.
pub fn told_alike_is_told_the_same()
    ensures { (c : ℕ) (asked other : List Asked) (replies answers : List (List ℕ))
        (life second : Life Asked)
        → AreToldAlike c (Answers asked replies ∷ []) (life ∷ [])
        (Answers other answers ∷ []) (second ∷ [])
        → at_places c life.answered (served_replies replies)
        ≡ at_places c second.answered (served_replies answers) }
{}

/// What a crash leaves of files in which a house was made holds the history to which nothing has
/// happened yet.
pub fn making_leaves_no_history<D: Disk>()
    ensures { (settings : Settings) (name : List ℕ) (before left : Image)
        (made : House (Renumbered (FileStore D D.Disk)))
        → IsMade (content over_order) is_failed (IsHonest over_order) (MayLeave over_order)
        name before name settings made
        → IsHonest over_order made → MayHold made left → ∥ HoldHistory settings [] left ∥₁ }
{}

/// What is left of files in which a keep was ended is what a crash could leave of it: so a run may end
/// in either.
pub fn ends_leave_databases<D: Disk>()
    ensures { (keep : House (Renumbered (FileStore D D.Disk))) (files : Files D) (left : Image)
        → IsEnded D.Disk keep files → AreClean D.Disk files.log files.db
        → outcomes D.Disk files.log files.db left
        → IsHonest over_order keep × MayHold keep left }
{}

/// Connections that were taken in turn are messages in turn, however taking them ended.
pub fn connections_are_messages_in_turn<C: Connections, K: Keep>()
    ensures { (zone : Zone) (most count : ℕ) (old : C × K) (last : K)
        → HasTakenSome K.is_failed (Takes K.Keep C.Input.Source C.Output.Sink C.accepts C.ends zone
        most) count old last
        → AreInTurn (Steps K.Keep zone) old.1 last }
{}

/// What serving leaves of the files, or of the store where its keep could not be ended, is left by a run of
/// messages, by the kept zone: of those that were read of its connections, with the replies to them.
pub fn servings_are_runs<D: Disk, C: Listen>()
    ensures { (image left : Image) (name : List ℕ) (files : Files D)
        → AreClean D.Disk files.log files.db → outcomes D.Disk files.log files.db left
        → (most count port : ℕ)
        → HasDone (IsOpened (content over_order) is_failed (IsHonest over_order)
        (MayLeave over_order) name image name)
        (IsServedOver (over_disk D.Disk) (λ came. C.is_at came port count) (IsEnded D.Disk) (IsLeft D.Disk)
        (λ zone. Takes (over_disk D.Disk) C.Input.Source C.Output.Sink C.accepts C.ends zone most)
        count) files
        → EndsAs D.Disk left files (MayServe D.Disk image (λ came. C.is_at came port count)
        (λ zone. TakesAs (over_disk D.Disk) C.Input.Source C.Output.Sink C.accepts C.ends zone most)
        count) }
{}

/// What an import leaves is left by a run of the orders of its lots, and of no other message.
pub fn imports_are_runs<D: Disk>()
    ensures { (image left : Image) (name : List ℕ) (files : Files D)
        → AreClean D.Disk files.log files.db → outcomes D.Disk files.log files.db left
        → (by : Lister)
        → HasDone (IsOpened (content over_order) is_failed (IsHonest over_order)
        (MayLeave over_order) name image name)
        (IsOrderedOver (content over_order) is_failed (IsHonest over_order)
        (MayLeave over_order) (IsEnded D.Disk) (IsLeft D.Disk) by) files
        → EndsAs D.Disk left files (MayList D.Disk image by) }
{}

/// What a statement leaves is left by a run of no message.
pub fn readings_are_runs<D: Disk>()
    ensures { (image left : Image) (name : List ℕ) (files : Files D)
        → AreClean D.Disk files.log files.db → outcomes D.Disk files.log files.db left
        → HasDone (IsOpened (content over_order) is_failed (IsHonest over_order)
        (MayLeave over_order) name image name)
        (IsReadOver (content over_order) is_failed (IsHonest over_order)
        (MayLeave over_order) (IsEnded D.Disk) (IsLeft D.Disk)) files
        → EndsAs D.Disk left files (λ Ends.
        (zone : Zone) → IsRunTo D.Disk zone image (Answers [] []) Ends) }
{}

/// What the setting of a band table leaves is left by a run of it.
pub fn settings_are_runs<D: Disk>()
    ensures { (image left : Image) (name : List ℕ) (files : Files D)
        → AreClean D.Disk files.log files.db → outcomes D.Disk files.log files.db left
        → (moment : ℕ)
        → HasDone (IsOpened (content over_order) is_failed (IsHonest over_order)
        (MayLeave over_order) name image name)
        (MayHaveSetTable (over_disk D.Disk) (IsEnded D.Disk) (IsLeft D.Disk) moment) files
        → EndsAs D.Disk left files (MaySet D.Disk image moment) }
{}

/// What is left of files in which a house was made holds the history to which nothing has happened yet.
pub fn makings_leave_no_history<D: Disk>()
    ensures { (image left : Image) (name : List ℕ) (files : Files D)
        → AreClean D.Disk files.log files.db → outcomes D.Disk files.log files.db left
        → (words : HouseWords)
        → HasDone (IsMadeBy (IsMade (content over_order) is_failed (IsHonest over_order)
        (MayLeave over_order) name image name) words)
        (IsOver (IsEnded D.Disk) (IsLeft D.Disk)) files
        → (settings : Settings) × IsSetBy words settings
        × (∥ HoldHistory settings [] left ∥₁
        ⊎ FindsTables D.Disk files (λ t. t ≡ tables_of settings [])) }
{}

/// What an upgrade leaves of files has the tables that they held, of version 1 or 2, and the house that
/// they held was of the version that it tells.
pub fn upgrades_leave_the_tables<D: Disk>()
    ensures { (image left : Image) (name : List ℕ) (files : Files D)
        → AreClean D.Disk files.log files.db → outcomes D.Disk files.log files.db left
        → (run : HasDone (IsUpgradedAs (IsUpgraded (content over_order) is_failed (IsHonest over_order)
        (MayLeave over_order) shown_house name image name))
        (IsOver (IsEnded D.Disk) (IsLeft D.Disk)) files)
        → (db : Trees) → HoldsDatabase image db
        → (HoldsToldHouse run.begun.was_first db
        × ∥ HoldsTables left (tables_after run.begun.was_first db) ∥₁)
        ⊎ FindsTables D.Disk files (λ t. HoldsToldHouse run.begun.was_first db
        × (t ≡ tables_after run.begun.was_first db)) }
{}
