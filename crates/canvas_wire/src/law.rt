//! A law on the lines of replies.
ghost use Rattle.canvas_wire.specs.ReplyObjects.{AreJson};

/// The line of each reply is JSON: the compact text of one object, its members in the order of
/// their names, and an LF.
pub fn replies_are_json()
    ensures { AreJson }
{}
