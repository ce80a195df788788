// What is proved of many picks in a row, and of other rows in force.
ghost use Rattle.std.specs.Prelude.{◌≡◌, ◌≤◌, ◌*◌, ℕ, true, List, [], ◌∷◌, All, Some, length};
ghost use Rattle.mx_base.specs.declared.names.Hostgroup.{Hostgroup};
ghost use Rattle.mx_base.specs.declared.names.ServerId.{ServerId};
ghost use Rattle.hostgroups.specs.Picks.{AllReady, IsRoundOfPicks, picks, times_picked};
ghost use Rattle.hostgroups.specs.declared.row.ServerName.{ServerName};
ghost use Rattle.hostgroups.specs.declared.row.ServerRow.{ServerRow};
ghost use Rattle.hostgroups.specs.declared.server.Server.{Server};
ghost use Rattle.hostgroups.specs.Reloads.{as_named, reloaded};
ghost use Rattle.hostgroups.specs.Rows.{number_of};
ghost use Rattle.hostgroups.specs.Servers.{belongs, names_of, server_at, turning_rows};
ghost use Rattle.hostgroups.specs.Tables.{Holds, Table};
ghost use Rattle.hostgroups.specs.Turns.{weight_of_all, weights_in};

/// In a full round in which each server of a hostgroup is ONLINE with room, wherever the round began, `Servers::pick` gives
/// each exactly as often as its weight, and none of another hostgroup.
pub fn full_round()
    ensures { (table : Table) (hostgroup : Hostgroup) (counts : List (List ℕ))
        → IsRoundOfPicks table hostgroup counts → (server : ServerId)
        → times_picked server (picks table hostgroup counts) ≡ weights_in (turning_rows table.servers) hostgroup server }
{}

/// Of two picks in a row, at both of which each server of a hostgroup is ONLINE with room, no server gets both, unless its
/// weight is more than those of the others together: neither in a round nor from one to the next.
pub fn not_twice()
    ensures { (table : Table) (hostgroup : Hostgroup) (now next : List ℕ)
        → Holds table → AllReady table.servers hostgroup now → AllReady table.servers hostgroup next → (server : ServerId)
        → 2 * weights_in (turning_rows table.servers) hostgroup server ≤ weight_of_all (turning_rows table.servers) hostgroup
        → times_picked server (picks table hostgroup (now ∷ next ∷ [])) ≤ 1 }
{}

/// A server of a hostgroup, of which none has a greater weight, gets one at most of so many picks in a row as its weight goes
/// into all weights together, where each of its hostgroup's servers is ONLINE with room at each. So servers of one weight are
/// picked round and round, each once before one is picked again.
pub fn heaviest_apart()
    ensures { (table : Table) (hostgroup : Hostgroup) (counts : List (List ℕ))
        → Holds table → All (AllReady table.servers hostgroup) counts → (server : ServerId) → belongs table.servers hostgroup server ≡ true
        → ((other : ServerId) → weights_in (turning_rows table.servers) hostgroup other ≤ weights_in (turning_rows table.servers) hostgroup server)
        → length counts * weights_in (turning_rows table.servers) hostgroup server ≤ weight_of_all (turning_rows table.servers) hostgroup
        → times_picked server (picks table hostgroup counts) ≤ 1 }
{}

/// A server keeps its number as other rows are put in force, whether or not one of them is its own, and goes by that row then.
pub fn numbers_stay()
    ensures numbers { (servers : List Server) (rows : List ServerRow) (name : ServerName) (number : ServerId)
        → number_of (names_of servers) name ≡ Some number → number_of (names_of (reloaded servers rows)) name ≡ Some number }
    ensures rows { (servers : List Server) (rows : List ServerRow) (number : ServerId) (server : Server)
        → server_at servers number ≡ Some server → server_at (reloaded servers rows) number ≡ Some (as_named rows server) }
{}
