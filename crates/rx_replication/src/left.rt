ghost use Rattle.rx_replication.specs.Left.{EveryLink, LowersPushesLeft, PushesAtMostTwice, IsQuietInTime, QuietIsEqual, ExchangesAreSteps};

/// States how many exchanges are enough where no request and no reply is lost and nothing else
/// writes, for every handler and from every fork and master, and does nothing. An exchange that
/// finds no write time isn't counted.
pub fn pushes_left_laws()
    // An exchange lowers the pushes left by the documents that it pushes; a pull pushes none.
    ensures lowered { EveryLink LowersPushesLeft }
    // What is pending at the start is pushed at most twice, and nothing else is pushed.
    ensures twice { EveryLink PushesAtMostTwice }
    // Of 2 P + K + 1 exchanges one is quiet, for P pending documents and K keys.
    ensures in_time { EveryLink IsQuietInTime }
    // Quiet means equal.
    ensures equal { EveryLink QuietIsEqual }
    // An exchange is a request made, handled, and its reply taken.
    ensures steps { ExchangesAreSteps }
{}
