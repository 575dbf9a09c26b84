//! What the definitions mean. No code runs here.
ghost use Rattle.std.specs.Prelude.{◌≡◌, Bool, true};
ghost use Rattle.house_rows.specs.declared.fault.KeepFault.TheVariants.{Memory, Store, Damaged};
ghost use Rattle.house_rows.specs.declared.reply.Reply.{Reply};
ghost use Rattle.settle.specs.declared.zone.Zone.{Zone};
ghost use Rattle.site_request.specs.declared.fault.RequestFault.{RequestFault};
ghost use Rattle.site_replies.specs.Texts.{IsServed, fault_text, is_failure, is_refusal_of_memory, reply_text};

/// No reply of the house has the status 500 or 503, and each text of a fault has one of them.
pub fn texts_tell_their_status()
    ensures served { (zone : Zone) (closes : Bool) (reply : Reply RequestFault)
        → IsServed (reply_text zone closes reply) }
    ensures memory { (closes : Bool) → is_refusal_of_memory (fault_text Memory closes) ≡ true }
    ensures store { (closes : Bool) → is_failure (fault_text Store closes) ≡ true }
    ensures damaged { (closes : Bool) → is_failure (fault_text Damaged closes) ≡ true }
{}
