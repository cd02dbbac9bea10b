//! Laws of sessions: that bytes have one list of lines, and that all that is asked and answered belongs to one history.

ghost use Rattle.std.specs.Prelude.{◌≡◌, ◌≤◌, ◌+◌, true, false, ℕ, List, ◌++◌, length, take, Result};
ghost use Rattle.std.specs.List.{flat_map, AllByRecursion};
ghost use mathlib.Core.List.{IsPrefix};
ghost use Rattle.canvas_record.specs.declared.edits.Change.{Change};
ghost use Rattle.canvas_record.specs.Contents.{Contents};
ghost use Rattle.canvas_record.specs.History.{AllFit};
ghost use Rattle.canvas_wire.specs.declared.request.Request.{Request};
ghost use Rattle.canvas_wire.specs.declared.fault.WireFault.{WireFault};
ghost use Rattle.canvas_look.specs.Seen.{Seen, IsSound};
ghost use Rattle.canvas_session.specs.Line.{HasNoLf, IsLine, ended, lines_of};
ghost use Rattle.canvas_session.specs.Response.{Response};
ghost use Rattle.canvas_session.specs.Transcript.{IsTranscript, Step};
ghost use Rattle.canvas_session.specs.Session.{Ends, Serves};
ghost use Rattle.canvas_session.specs.Belongs.{BelongsTo, changes_in, changes_of};
ghost use Rattle.canvas_session.specs.OneHistory.{AreOfOneLine, EachBelongs, OneSession, SessionTells};
ghost use Rattle.canvas_session.specs.declared.fault.SessionFault.{SessionFault};
ghost use Rattle.canvas_session.specs.declared.served.Served.{Served};

/// Up to 1,000,000 lines and a rest without an LF are the lines of the bytes that they make: bytes
/// have one list of lines.
pub fn lines_are_one()
    ensures { (lines : List (List ℕ)) (rest : List ℕ) → AllByRecursion IsLine lines
        → length lines ≤ 1000000 → HasNoLf rest
        → lines_of (flat_map ended lines ++ rest) ≡ lines }
{}

/// Of each transcript of a board, whatever the number of its workers: all that was asked and
/// answered belongs to one history of accepted changes, in which each change fits where it stands.
/// Each answer, an edit's, a picture's, a point's, an export's or a refusal, is what its request
/// comes to after so many of these changes, no fewer than the answer before it.
pub fn transcripts_belong_to_one_history()
    ensures { (workers : ℕ) (s t : Seen) (requests : List (Result Request WireFault))
        (answers : List Response)
        → IsSound s → IsTranscript workers s requests answers t
        → BelongsTo workers s t.front requests answers }
{}

/// Where others edit too, what belongs to a history belongs to each longer one that the board may
/// see.
pub fn longer_histories_hold_as_much()
    ensures { (workers : ℕ) (b : Seen) (history longer : List Change)
        (requests : List (Result Request WireFault)) (answers : List Response)
        → b.alone ≡ false → BelongsTo workers b history requests answers
        → IsPrefix history longer → AllFit b.opening longer → length longer ≤ b.limit
        → BelongsTo workers b longer requests answers }
{}

/// Where nobody else edits, whatever is not an accepted edit leaves the board as it was: a refused
/// edit leaves the document and its history, and so does a look.
pub fn lone_boards_change_by_accepted_edits_alone()
    ensures { (workers : ℕ) (s : Seen) (request : Result Request WireFault) (answer : Response)
        (t : Seen) → IsSound s → s.alone ≡ true → Step workers s request answer t
        → changes_of answer.reply ≡ 0 → t ≡ s }
{}

/// Where nobody else edits, the changes that came are as many as the edits that were accepted: no
/// other change was made.
pub fn lone_boards_make_no_other_change()
    ensures { (workers : ℕ) (b : Seen) (history : List Change)
        (requests : List (Result Request WireFault)) (answers : List Response)
        → b.alone ≡ true → BelongsTo workers b history requests answers
        → length history ≡ length b.front + changes_in answers }
{}

/// What a session was asked and answered belongs to one history, by what `serve` promises of it. It
/// ends with no closing line, or with that of 70 or of 73.
pub fn sessions_tell_one_history()
    ensures { (workers : ℕ) (e : Ends) (result : Result Served SessionFault) → IsSound e.before
        → Serves workers e result
        → SessionTells workers e }
{}

/// Of any number of sessions at one document: where of what any two of their seats have seen the
/// one is a beginning of the other (`Seat::one_history` of canvas_line), all that they were asked
/// and answered belongs to one history. What a session tells is of the first so many changes that
/// its seat has seen.
pub fn all_sessions_tell_one_history()
    ensures { (opening : Contents) (limit : ℕ) (sessions : List OneSession)
        → EachBelongs opening limit (λ s. take s.known s.seen) sessions → AreOfOneLine sessions
        → (one : List Change) × EachBelongs opening limit (λ s. one) sessions }
{}
