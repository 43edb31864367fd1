//! A load for tests, as it stands in `examples/`.

/// A robot: control and vision, a throttled lidar, and bursts of logging that ask for more than they have.
pub const ROBOT: &str = "\
# A robot's day: what must be in time, what may take long, and a greedy logger.
#
#   cbsrun check ROBOT.toml                         does it fit?
#   cbsrun simulate ROBOT.toml                      what comes of it
#
# A tick is one unit of work. What a tick is in your robot, you decide: 1 ms, say.
load = 1
bound = [1, 1]      # all shares together: at most the whole of the time
backlog = 4         # unfinished jobs that a server keeps; a release beyond is refused
until = 200         # ticks to simulate
seed = 7            # for what is drawn between [least, greatest]

# 1 tick in every 5. One unit every 5 ticks: it is finished within 5, always.
[[server]]
name = \"control\"
mode = \"soft\"
budget = 1
period = 5

[[source]]
server = \"control\"
every = 5
units = 1

# A camera frame: 6 units every 20 ticks. The budget is the whole frame.
[[server]]
name = \"vision\"
mode = \"soft\"
budget = 6
period = 20

[[source]]
server = \"vision\"
every = 20
units = 6

# A scan of 3 units, with a budget of 2: the third waits for the next period,
# since a throttled server gets its budget and never more.
[[server]]
name = \"lidar\"
mode = \"throttled\"
budget = 2
period = 10

[[source]]
server = \"lidar\"
first = 3
every = 20
units = 3
within = 20

# Bursts that ask for more than is reserved. It is soft, so it gets what nobody
# else wants; what it does not get it waits for, and nobody else does.
[[server]]
name = \"logging\"
mode = \"soft\"
budget = 1
period = 10

[[source]]
server = \"logging\"
first = 12
every = [4, 12]
units = [1, 5]
within = 20
";
