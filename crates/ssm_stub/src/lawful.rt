//! The law of lawful replies.

ghost use Rattle.std.specs.Prelude.{◌≡◌, ◌↔◌, Some};
ghost use Rattle.crash_base.specs.declared.numbers.BrickNo.{BrickNo};
ghost use Rattle.crash_base.specs.declared.numbers.Moment.{Moment};
ghost use Rattle.crash_base.specs.declared.numbers.SessionKey.{SessionKey};
ghost use Rattle.crash_base.specs.declared.numbers.Version.{Version};
ghost use Rattle.session_cookie.specs.declared.cookie.Holder.{Holder};
ghost use Rattle.ssm_frames.specs.declared.frame.Frame.{Frame};
ghost use Rattle.ssm_stub.specs.declared.reply.ReadReply.{ReadReply};
ghost use Rattle.ssm_stub.specs.declared.reply.WriteReply.{WriteReply};
ghost use Rattle.ssm_stub.specs.Lawful.{IsPutReply, IsGetReply};
ghost use Rattle.ssm_stub.specs.Reads.{get_lawful};
ghost use Rattle.ssm_stub.specs.Writes.{put_lawful};

/// A frame is a lawful reply exactly where it has this call's nonce, key and version and the brick's number, and is
/// a Stored or a BrickFull to a Put, and to a Get a Found, an Absent of another incarnation, or an Absent of this one
/// that was swept past the expiry and the grace. This refuses a rule that takes a reply with another nonce, key or
/// version or of another brick, and one that passes over a reply that is the call's own.
pub fn lawful_replies_are_exact()
    ensures put { (nonce : Version) (key : SessionKey) (brick : BrickNo) (frame : Frame) (reply : WriteReply)
        → (put_lawful nonce key brick frame ≡ Some reply) ↔ IsPutReply nonce key brick frame reply }
    ensures get { (nonce : Version) (key : SessionKey) (version : Version) (expiry : Moment) (holder : Holder)
        (frame : Frame) (reply : ReadReply)
        → (get_lawful nonce key version expiry holder frame ≡ Some reply)
        ↔ IsGetReply nonce key version expiry holder frame reply }
{}
