// Configurations.

/// The table `proxy` of each configuration, up to what differs.
pub const PROXY: &str = "[proxy]
listen = \"127.0.0.1:6033\"
admin_listen = \"127.0.0.1:6032\"
admin_user = \"admin\"
admin_password = \"\"
";

/// The users u without a password and p with one, and one server.
pub const ONE_SERVER: &str = "[[users]]
name = \"u\"
password = \"\"
[[users]]
name = \"p\"
password = \"secret\"
[[servers]]
hostgroup = 0
host = \"127.0.0.1\"
port = 3306
";

/// The user u without a password, one server, and a rule that keeps each session whose client said DO.
pub const ONE_RULE: &str = "[[users]]
name = \"u\"
password = \"\"
[[servers]]
hostgroup = 0
host = \"127.0.0.1\"
port = 3306
[[rules]]
rule_id = 1
match_pattern = \"^DO\"
multiplex = 0
";

/// The user u without a password, and one server that allows one connection.
pub const ONE_LINK: &str = "[[users]]
name = \"u\"
password = \"\"
[[servers]]
hostgroup = 0
host = \"127.0.0.1\"
port = 3306
max_connections = 1
";

/// The same, and two connections.
pub const TWO_LINKS: &str = "[[users]]
name = \"u\"
password = \"\"
[[servers]]
hostgroup = 0
host = \"127.0.0.1\"
port = 3306
max_connections = 2
";

/// The user u without a password, a server in each of two hostgroups, and a rule that sends each SELECT to the second.
pub const TWO_GROUPS: &str = "[[users]]
name = \"u\"
password = \"\"
[[servers]]
hostgroup = 0
host = \"127.0.0.1\"
port = 3306
[[servers]]
hostgroup = 1
host = \"127.0.0.1\"
port = 3307
[[rules]]
rule_id = 1
match_pattern = \"^SELECT\"
destination_hostgroup = 1
";

/// The user u without a password, a server that allows two connections, and one that allows one.
pub const UNEVEN: &str = "[[users]]
name = \"u\"
password = \"\"
[[servers]]
hostgroup = 0
host = \"127.0.0.1\"
port = 3306
max_connections = 2
[[servers]]
hostgroup = 0
host = \"127.0.0.1\"
port = 3307
max_connections = 1
";

/// The user u without a password, and no server. One client may be connected, and its messages are short.
pub const NO_SERVER: &str = "max_clients = 1
max_packet = 1024
[[users]]
name = \"u\"
password = \"\"
";

/// The user u without a password, and two servers. Two clients may be connected.
pub const TWO_CLIENTS: &str = "max_clients = 2
[[users]]
name = \"u\"
password = \"\"
[[servers]]
hostgroup = 0
host = \"127.0.0.1\"
port = 3306
[[servers]]
hostgroup = 0
host = \"127.0.0.1\"
port = 3307
";

/// A key that no rule has, in the second rule.
pub const UNKNOWN_RULE_KEY: &str = "[[users]]
name = \"u\"
password = \"\"
[[rules]]
rule_id = 1
[[rules]]
rule_id = 2
colour = 1
";

/// A list of statements with a digest that is none.
pub const BAD_LIST: &str = "[[users]]
name = \"u\"
password = \"\"
whitelist = 1
[[whitelist]]
user = \"u\"
schema = \"information_schema\"
digests = [\"xyz\"]
";

/// A key that no user has, and one that no server has.
pub const UNKNOWN_KEYS: &str = "[[users]]
name = \"u\"
password = \"\"
nick = \"v\"
[[servers]]
hostgroup = 0
host = \"127.0.0.1\"
port = 3306
rack = 4
";

/// The user u without a password, the schema of generated loads, and one server that allows one connection.
pub const ONE_LOAD_LINK: &str = "default_schema = \"load\"
[[users]]
name = \"u\"
password = \"\"
[[servers]]
hostgroup = 0
host = \"127.0.0.1\"
port = 3306
max_connections = 1
";

/// The same, and two connections.
pub const TWO_LOAD_LINKS: &str = "default_schema = \"load\"
[[users]]
name = \"u\"
password = \"\"
[[servers]]
hostgroup = 0
host = \"127.0.0.1\"
port = 3306
max_connections = 2
";

/// The same, and eight connections.
pub const LOAD_LINKS: &str = "default_schema = \"load\"
[[users]]
name = \"u\"
password = \"\"
[[servers]]
hostgroup = 0
host = \"127.0.0.1\"
port = 3306
max_connections = 8
";
