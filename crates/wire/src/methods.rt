//! The methods that a response allows.
ghost use Rattle.std.specs.Prelude.{◌≡◌};
ghost use Rattle.wire.specs.Response.{methods_text};

/// The methods that a path has, which the response to another method gives (RFC 9110, 10.2.1).
#[derive(Clone, Copy)]
pub enum Methods {
    Get,
    Post,
    GetAndPost,
}

impl Methods {
    /// Their list, as the field `allow` has it.
    pub fn text(self) -> &'static str
        ensures { result.now ≡ methods_text self }
    {
        match self {
            Methods::Get => "GET",
            Methods::Post => "POST",
            Methods::GetAndPost => "GET, POST",
        }
    }
}
