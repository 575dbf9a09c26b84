//! What is answered at a broken frame. No code runs here.
ghost use Rattle.std.specs.Prelude.{◌≡◌, Err};
ghost use Rattle.house_rows.specs.declared.settings.Settings.{Settings};
ghost use Rattle.house_rows.specs.History.{History};
ghost use Rattle.settle.specs.declared.zone.Zone.{Zone};
ghost use Rattle.site.specs.Replies.{reply_to};
ghost use Rattle.site_request.specs.Asked.{asked_of};
ghost use Rattle.site_serve.specs.Serving.{fault_bytes};
ghost use Rattle.wire.specs.declared.fault.WireFault.{WireFault};

/// A broken rest is answered as a text is answered whose frame has that fault.
pub fn broken_rests_are_answered()
    ensures { (settings : Settings) (zone : Zone) (h : History) (f : WireFault)
        → reply_to settings zone h (asked_of (Err f)) ≡ fault_bytes f }
{}
