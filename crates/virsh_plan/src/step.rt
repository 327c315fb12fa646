// The one thing that is asked.
ghost use Rattle.std.specs.Prelude.{◌≡◌, ◌∷◌, [], IfSome, slice_get};

/// The request, where nothing was answered yet.
pub(crate) fn only<R: Drop>(request: R, answered: usize) -> Option<R>
    ensures is { result ≡ slice_get (request ∷ []) answered }
    ensures same { IfSome result (λ it. it ≡ request) }
{
    if answered == 0 { Some(request) } else { None }
}
