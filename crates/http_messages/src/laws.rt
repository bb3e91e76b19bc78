//! What stands at the front of some bytes stands there whatever bytes follow, and nothing else does.
ghost use Rattle.http_messages.specs.Laws.{CallStays, HeadStays, FaultStays, CallIsOne, HeadIsOne, FaultIsNoHead};

/// A whole request, a whole head and a fault are the same in any longer input: so it doesn't matter in what pieces it
/// comes. There is one of them at most.
pub fn fronts_stay()
    ensures call { CallStays }
    ensures head { HeadStays }
    ensures fault { FaultStays }
    ensures one_call { CallIsOne }
    ensures one_head { HeadIsOne }
    ensures no_head { FaultIsNoHead }
{}
