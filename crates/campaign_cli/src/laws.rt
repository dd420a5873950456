//! What each status says, and what stays behind a session and a server, as laws.
ghost use Rattle.std.specs.Prelude.{ℕ};
ghost use Rattle.campaign_cli.specs.Ends.ArchiveEnds.{ArchivesAddOne};
ghost use Rattle.campaign_cli.specs.CalmSessions.{CalmSessionsAreAnswered};
ghost use Rattle.campaign_cli.specs.Endings.{Ends};
ghost use Rattle.campaign_cli.specs.Surroundings.Outside.{Outside};
ghost use Rattle.campaign_cli.specs.Requests.{Request};
ghost use Rattle.campaign_cli.specs.Ends.ServeEnds.{ServersStand};
ghost use Rattle.campaign_cli.specs.Ends.SessionEnds.{SessionsStand};
ghost use Rattle.campaign_cli.specs.Statuses.{Statuses};

use book::Disk;
use eval::never_both;

/// However the program ends, its status is that of a cause that holds; with its files there and
/// within their grammars, and so its disk, the work is done; and what the words don't need is as it
/// was.
pub fn each_status_says<D: Disk>()
    ensures { (request : Request) (old new : Outside D) (status : ℕ)
        → Ends D.seen request old new status
        → Statuses D.seen request old new status }
{
    never_both();
}

/// Where its files and its disk are told and within their grammars and no call failed, each whole
/// request of a session is answered by the rules, by its own fault or by want of memory.
pub fn calm_sessions_are_answered<D: Disk>()
    ensures { CalmSessionsAreAnswered D.seen }
{}

/// Where no call on the disk failed in a session, the disk stands at its end for the accepted
/// entries alone.
pub fn sessions_stand<D: Disk>()
    ensures { SessionsStand D.seen }
{}

/// Where no call on the disk failed while a server ran, the disk stands at its end for the accepted
/// entries alone.
pub fn servers_stand<D: Disk>()
    ensures { ServersStand D.seen }
{}

/// However `archive` ends, the archive holds what it held, and behind it at most the release of the
/// campaign, which is published and whose name wasn't held.
pub fn archives_add_one<D: Disk>()
    ensures { ArchivesAddOne D.seen }
{}
